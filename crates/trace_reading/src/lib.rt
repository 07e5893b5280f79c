// A trace to its end: one entry against its call, what is told of it, and the reading of entries.
#![tactic(auto)]

mod entry;
mod reading;
mod telling;

pub use reading::replay;
