// States as the bytes of a trace: every field in the order of the struct, at the full width of its
// type, low byte first, all creature slots included, then the two clock marks.
#![tactic(auto)]

mod cutters;
mod mines;

pub use cutters::{CUTTER, cutter_of, mover_of, put_cutter};
pub use mines::{MINE, enemy_of, mine_of, put_mine};
