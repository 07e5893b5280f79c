// Block Mine: load, move and creature tick, on well-formed states.
#![tactic(auto)]

mod level;
mod moves;
mod ticks;
mod ways;

pub use level::load;
pub use moves::{Player, step_on, step_player};
pub use ticks::{move_enemies, tick_on};
