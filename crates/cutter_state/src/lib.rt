// Block Cutter: the state.
#![tactic(auto)]

use cutter_ground::{CN, MAX_ENEMIES, Mover};

pub const MAX_LIVES: u32 = 3;

pub const MAX_LEVEL: u32 = 65535;

#[repr(C)]
#[derive(Clone, Copy)]
pub struct Cutter {
    pub grid: [u8; CN],
    pub px: usize,
    pub py: usize,
    pub dx: i8,
    pub dy: i8,
    pub trailing: bool,
    pub enemies: [Mover; MAX_ENEMIES],
    pub count: usize,
    pub level: u32,
    pub lives: u32,
    pub dead: bool,
    pub won_level: bool,
}
