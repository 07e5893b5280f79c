// Block Mine at a console.
ghost use Rattle.std.specs.Prelude.{◌≡◌};
ghost use Rattle.mine_pass.specs.Pass.{pass_at};
ghost use Rattle.console_turns.specs.Turns.{mine_started, mine_after, mine_turn};

use crate::{GOING_ON, QUIT, pressed, stands};
use console_keys::KEY_NEW;
use controls::KEY_QUIT;
use mine_state::Mine;

// The game, the marks of its record, and how the round stands.
#[derive(Clone, Copy)]
pub struct MinePlay {
    pub game: Mine,
    pub first: u32,
    pub second: u32,
    pub stands: u8,
}

// A round from its first reading on.
pub fn mine_start(time: u32) -> MinePlay
    ensures { result ≡ mine_started time }
{
    let marks = pace::start(time);
    MinePlay {
        game: mine::load(),
        first: marks.first,
        second: marks.second,
        stands: GOING_ON,
    }
}

fn mine_pass(p: MinePlay, keys: &[u8], time: u32) -> MinePlay
    ensures { result ≡ mine_after (pass_at p.game keys.now time p.first p.second) }
{
    let t = mine::pass_marks(p.game, keys, time, p.first, p.second);
    MinePlay {
        game: t.passed.game,
        first: t.first,
        second: t.second,
        stands: stands(t.passed.refusal, t.passed.answer),
    }
}

// One turn: a pass while the round goes on; then the end, or another round, by key.
#[tactic(auto, unfolding(crate::specs::Turns::mine_turn))]
pub fn mine_turn(p: MinePlay, keys: &[u8], time: u32) -> MinePlay
    ensures { result ≡ mine_turn p keys.now time }
{
    if p.stands == GOING_ON {
        return mine_pass(p, keys, time);
    }
    if pressed(keys, KEY_QUIT) {
        return MinePlay { stands: QUIT, ..p };
    }
    if pressed(keys, KEY_NEW) {
        return mine_start(time);
    }
    p
}
