// The call of a trace's entry, made through the public calls, against what the entry tells.
#![tactic(auto)]

mod cutters;
mod mines;
mod shared;

pub use cutters::on_cutter;
pub use mines::on_mine;
