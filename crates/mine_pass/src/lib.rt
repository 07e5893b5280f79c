// One turn of Block Mine's loop, as definitions (specs/), their laws and what a turn keeps (proofs/); here the words that they share with the
// code.
#![tactic(auto)]

use answer::Answer;
use mine_state::Mine;
use refusal::Checked;

// Cycles between gravity ticks and creature ticks.
pub const GRAVITY_CYCLES: u32 = 12_000_000;

pub const ENEMY_CYCLES: u32 = 36_000_000;

#[derive(Clone, Copy)]
pub struct MinePassed {
    pub refusal: Checked,
    pub answer: Answer,
    pub game: Mine,
}

// What a pass makes on numbers: the marks, and the rest.
#[derive(Clone, Copy)]
pub struct MineTurn {
    pub first: u32,
    pub second: u32,
    pub passed: MinePassed,
}
