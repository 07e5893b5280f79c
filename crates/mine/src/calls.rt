// The calls on a state: each checks it once, and refuses it or plays.
ghost use Rattle.std.specs.Prelude.{◌≡◌, Err};
ghost use Rattle.mine_rules.specs.Load.{loaded};
ghost use Rattle.mine.specs.Calls.{refused, answered, move_call, gravity_call, tick_call};

use controls::LEFT;
use mine_check::check;
use mine_state::Mine;
use refusal::{Checked, Refusal};

#[derive(Clone, Copy)]
pub struct MineAnswer {
    pub refusal: Checked,
    pub game: Mine,
}

impl MineAnswer {
    // A refused call gives the state that it got.
    fn refused(m: Mine, no: Refusal) -> MineAnswer
        ensures { result ≡ refused m (Err no) }
    {
        MineAnswer {
            refusal: Err(no),
            game: m,
        }
    }

    fn answered(game: Mine) -> MineAnswer
        ensures { result ≡ answered game }
    {
        MineAnswer {
            refusal: Ok(()),
            game,
        }
    }
}

// The loaded mine.
pub fn load() -> Mine
    ensures { result ≡ loaded }
{
    mine_moves::load()
}

// A move: 0 up, 1 right, 2 down, 3 left.
#[tactic(auto, unfolding(crate::specs::Calls::move_call))]
pub fn step_player(m: Mine, dir: u8) -> MineAnswer
    ensures { result ≡ move_call m dir }
{
    if let Err(no) = check(m) {
        return MineAnswer::refused(m, no);
    }
    if LEFT < dir {
        return MineAnswer::refused(m, Refusal::Command);
    }
    MineAnswer::answered(mine_moves::step_player(m, dir))
}

// One gravity tick.
#[tactic(auto, unfolding(crate::specs::Calls::gravity_call))]
pub fn gravity(m: Mine) -> MineAnswer
    ensures { result ≡ gravity_call m }
{
    match check(m) {
        Err(no) => MineAnswer::refused(m, no),
        Ok(()) => MineAnswer::answered(mine_fall::gravity(m)),
    }
}

// One creature tick.
#[tactic(auto, unfolding(crate::specs::Calls::tick_call))]
pub fn move_enemies(m: Mine) -> MineAnswer
    ensures { result ≡ tick_call m }
{
    match check(m) {
        Err(no) => MineAnswer::refused(m, no),
        Ok(()) => MineAnswer::answered(mine_moves::move_enemies(m)),
    }
}
