// Block Cutter.
ghost use Rattle.std.specs.Prelude.{true, ◌≡◌};
ghost use Rattle.frame.specs.Frame.{pack};
ghost use Rattle.refusal.specs.Refusal.{numbered_of};
ghost use Rattle.cutter_border.specs.CodeBorder.{to_border};
ghost use Rattle.cutter_state.specs.WellFormed.{WellFormed, refusal_of};
ghost use Rattle.cutter_rules.specs.Level.{draws_ok, creatures_of, fresh_level};
ghost use Rattle.cutter_rules.specs.Cost.{step_made, swept_made, respawn_made};
ghost use Rattle.cutter_rules.specs.Tick.{enemies_stepped};
ghost use Rattle.cutter_moves.specs.CodeMoves.{OnGrid};
ghost use Rattle.cutter_picture.specs.Picture.{cut_lit};
ghost use Rattle.cutter_picture.specs.CodePicture.{Drawable};
ghost use Rattle.cutter_ground.specs.Cells.{place};

use cutter_ground::CW;
use cutter_rules::Made;
use cutter_state::Cutter;
use refusal::Numbered;

// The copies of a state in and out, and nothing else.
#[unsafe(no_mangle)]
pub extern "C" fn copy_cutter(c: Cutter) -> Cutter
    ensures { result ≡ c }
{
    c
}

#[unsafe(no_mangle)]
pub extern "C" fn check_cutter(c: Cutter) -> Numbered
    ensures { result ≡ numbered_of (refusal_of c) }
{
    Numbered::from(cutter_check::check(c))
}

#[unsafe(no_mangle)]
pub extern "C" fn rule_cutter_step(c: Cutter) -> Made
    requires { WellFormed c }
    ensures { result ≡ step_made c }
{
    cutter_moves::step_player(c)
}

#[unsafe(no_mangle)]
pub extern "C" fn rule_cutter_step_by_sweeps(c: Cutter) -> Made
    requires { WellFormed c }
    ensures { result ≡ swept_made c }
{
    cutter_moves::step_by_sweeps(c)
}

#[unsafe(no_mangle)]
pub extern "C" fn rule_cutter_tick(c: Cutter) -> Cutter
    requires { WellFormed c }
    ensures { result ≡ enemies_stepped c }
{
    cutter_moves::step_enemies(c)
}

#[unsafe(no_mangle)]
pub extern "C" fn rule_cutter_respawn(c: Cutter) -> Made
    ensures { result ≡ respawn_made c }
{
    cutter_moves::respawn(c)
}

#[unsafe(no_mangle)]
pub extern "C" fn rule_cutter_level(c: Cutter, draws: &[u8]) -> Cutter
    requires { draws_ok draws.now (creatures_of c.level) ≡ true }
    ensures { result ≡ fresh_level c draws.now }
{
    cutter_level::new_level(c, draws)
}

// Where the walk to the border ends.
#[unsafe(no_mangle)]
pub extern "C" fn rule_cutter_walk(c: Cutter) -> usize
    requires { OnGrid c.px c.py }
    ensures { result ≡ (to_border c.grid (place c.px c.py)).at }
{
    let start = c.py * CW + c.px;
    cutter_border::move_to_border(&c.grid, start).at
}

#[unsafe(no_mangle)]
pub extern "C" fn rule_cutter_picture(c: Cutter, frame: &mut [u8])
    requires { Drawable c frame.old }
    ensures { frame.new ≡ pack (cut_lit c) }
{
    cutter_render::cutter_render(c, frame);
}
