// A closed cut: what the closing of a line leaves.
#![tactic(auto)]

use cutter_ground::{CN, MAX_ENEMIES, Mover};

#[repr(C)]
#[derive(Clone, Copy)]
pub struct Cut {
    pub grid: [u8; CN],
    pub enemies: [Mover; MAX_ENEMIES],
    pub count: usize,
}
