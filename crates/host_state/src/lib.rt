// The states as C holds them, and to and from the games' own: each flag is a byte, 0 or 1.
#![tactic(auto)]

mod cutter_bytes;
mod flags;
mod mine_bytes;

pub use cutter_bytes::{HostCutter, cutter_flags, cutter_game, cutter_host};
pub use mine_bytes::{HostMine, mine_flags, mine_game, mine_host};
