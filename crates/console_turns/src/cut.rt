// Block Cutter at a console.
ghost use Rattle.std.specs.Prelude.{◌≡◌, ◌+◌, ◌*◌};
ghost use Rattle.cutter_rules.specs.Level.{creatures_of};
ghost use Rattle.cutter_rules.specs.Level as Level;
ghost use Rattle.cutter_pass.specs.Pass.{pass_at};
ghost use Rattle.console_turns.specs.Turns.{draws_due, cutter_started, cutter_after, cutter_turn};

use crate::draws::MOST_DRAWS;
use crate::{GOING_ON, QUIT, pressed, stands};
use answer::Answer;
use console_keys::KEY_NEW;
use controls::KEY_QUIT;
use cutter_state::Cutter;

// The game, the marks of its record, and how the round stands.
#[derive(Clone, Copy)]
pub struct CutterPlay {
    pub game: Cutter,
    pub first: u32,
    pub second: u32,
    pub stands: u8,
}

// A round takes four draws.
pub const ROUND: usize = 4;

// From this level on the next one has 16 creatures.
const CROWDED: u32 = 15;

// The draws of the level after this one.
fn next_draws(level: u32) -> usize
    ensures { result ≡ Level.DRAWS_EACH * creatures_of (level + 1) }
{
    if CROWDED <= level {
        return MOST_DRAWS;
    }
    ROUND * (level as usize + 1)
}

// How many draws the next turn takes.
#[tactic(auto, unfolding(crate::specs::Turns::draws_due, cutter_pass::specs::Pass::level_due))]
pub fn cutter_draws(p: CutterPlay) -> usize
    ensures { result ≡ draws_due p }
{
    if p.stands != GOING_ON {
        return ROUND;
    }
    if p.game.dead || !p.game.won_level {
        return 0;
    }
    next_draws(p.game.level)
}

// A round from its first reading on.
#[tactic(auto, unfolding(crate::specs::Turns::cutter_started, crate::specs::Turns::standing))]
pub fn cutter_start(draws: &[u8], time: u32) -> CutterPlay
    ensures { result ≡ cutter_started draws.now time }
{
    let marks = pace::start(time);
    let round = cutter::new_round(draws);
    CutterPlay {
        game: round.game,
        first: marks.first,
        second: marks.second,
        stands: stands(round.refusal, Answer::GoingOn),
    }
}

fn cutter_pass(p: CutterPlay, keys: &[u8], draws: &[u8], time: u32) -> CutterPlay
    ensures { result ≡ cutter_after (pass_at p.game keys.now draws.now time p.first p.second) }
{
    let t = cutter::pass_marks(p.game, keys, draws, time, p.first, p.second);
    CutterPlay {
        game: t.passed.game,
        first: t.first,
        second: t.second,
        stands: stands(t.passed.refusal, t.passed.answer),
    }
}

// One turn: a pass while the round goes on; then the end, or another round, by key.
#[tactic(auto, unfolding(crate::specs::Turns::cutter_turn))]
pub fn cutter_turn(p: CutterPlay, keys: &[u8], draws: &[u8], time: u32) -> CutterPlay
    ensures { result ≡ cutter_turn p keys.now draws.now time }
{
    if p.stands == GOING_ON {
        return cutter_pass(p, keys, draws, time);
    }
    if pressed(keys, KEY_QUIT) {
        return CutterPlay { stands: QUIT, ..p };
    }
    if pressed(keys, KEY_NEW) {
        return cutter_start(draws, time);
    }
    p
}
