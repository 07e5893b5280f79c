// What the programs do with one byte, with a run of bytes, and with standard input.
#![tactic(auto)]

mod cuts;
mod mines;
mod playing;
mod reading;

pub use cuts::{cut_byte, cut_numbers, cut_run, cut_start, play_cuts};
pub use mines::{mine_byte, mine_numbers, mine_run, play_mines};
pub use playing::{Played, Run, Runnable, Said, next};

// What parts the scripts of a run of cases; no script uses it.
pub const BAR: u8 = b'|';
