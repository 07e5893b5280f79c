// Block Cutter's rules, as definitions (specs/) and their cases and laws (proofs/); here what a step or a respawn makes.
#![tactic(auto)]

use cutter_state::Cutter;

// The state afterwards, and how many cells were taken by the search of a closing and by the walk to the border.
#[repr(C)]
#[derive(Clone, Copy)]
pub struct Made {
    pub game: Cutter,
    pub searched: u16,
    pub walked: u16,
}
