// Block Mine.
ghost use Rattle.std.specs.Prelude.{◌≡◌};
ghost use Rattle.frame.specs.Frame.{pack};
ghost use Rattle.refusal.specs.Refusal.{numbered_of};
ghost use Rattle.mine_state.specs.WellFormed.{WellFormed, refusal_of};
ghost use Rattle.mine_rules.specs.Load.{loaded};
ghost use Rattle.mine_rules.specs.Move.{moved};
ghost use Rattle.mine_rules.specs.Tick.{enemies_moved};
ghost use Rattle.mine_rules.specs.Gravity.{gravity_of};
ghost use Rattle.mine_picture.specs.Picture.{mine_lit};
ghost use Rattle.mine_picture.specs.CodePicture.{Drawable};

use mine_state::Mine;
use refusal::Numbered;

// The copies of a state in and out, and nothing else.
#[unsafe(no_mangle)]
pub extern "C" fn copy_mine(m: Mine) -> Mine
    ensures { result ≡ m }
{
    m
}

#[unsafe(no_mangle)]
pub extern "C" fn check_mine(m: Mine) -> Numbered
    ensures { result ≡ numbered_of (refusal_of m) }
{
    Numbered::from(mine_check::check(m))
}

#[unsafe(no_mangle)]
pub extern "C" fn rule_mine_load() -> Mine
    ensures { result ≡ loaded }
{
    mine_moves::load()
}

#[unsafe(no_mangle)]
pub extern "C" fn rule_mine_step(m: Mine, dir: u8) -> Mine
    requires { WellFormed m }
    ensures { result ≡ moved m dir }
{
    mine_moves::step_player(m, dir)
}

#[unsafe(no_mangle)]
pub extern "C" fn rule_mine_gravity(m: Mine) -> Mine
    requires { WellFormed m }
    ensures { result ≡ gravity_of m }
{
    mine_fall::gravity(m)
}

#[unsafe(no_mangle)]
pub extern "C" fn rule_mine_tick(m: Mine) -> Mine
    requires { WellFormed m }
    ensures { result ≡ enemies_moved m }
{
    mine_moves::move_enemies(m)
}

#[unsafe(no_mangle)]
pub extern "C" fn rule_mine_picture(m: Mine, frame: &mut [u8])
    requires { Drawable m frame.old }
    ensures { frame.new ≡ pack (mine_lit m) }
{
    mine_render::render(m, frame);
}
