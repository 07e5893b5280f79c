// One turn of Block Cutter's loop, as definitions (specs/), their laws and what a turn keeps (proofs/); here the words that they share with the
// code.
#![tactic(auto)]

use answer::Answer;
use cutter_ground::INNER;
use cutter_state::Cutter;
use refusal::Checked;

// Cycles between player steps and creature steps.
pub const CUT_MOVE_CYCLES: u32 = 2_400_000;

pub const CUT_ENEMY_CYCLES: u32 = 4_000_000;

// The level is won once less than this percentage of the cells inside the ring is black.
pub const CLEAR_BLACK_PCT: usize = 25;

pub const CLEAR_BELOW: usize = INNER * CLEAR_BLACK_PCT / 100;

// The state afterwards, and how many cells were taken by the search of its step's closing and by its walk to the border.
#[derive(Clone, Copy)]
pub struct CutterPassed {
    pub refusal: Checked,
    pub answer: Answer,
    pub game: Cutter,
    pub searched: u16,
    pub walked: u16,
}

// What a pass makes on numbers: the marks, and the rest.
#[derive(Clone, Copy)]
pub struct CutterTurn {
    pub first: u32,
    pub second: u32,
    pub passed: CutterPassed,
}
