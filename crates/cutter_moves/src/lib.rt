// Block Cutter: direction, step, creature tick and respawn, on well-formed states.
#![tactic(auto)]

mod ahead;
mod enemies;
mod player;

pub use enemies::{Moved, step_enemies, tick};
pub use player::{Player, Step, direction, respawn, step_by_sweeps, step_on, step_player};
