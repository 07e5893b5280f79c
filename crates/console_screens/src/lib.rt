// What a terminal shows: the head line and the screen.
#![tactic(auto)]

mod heads;
mod screens;

pub use screens::{Screen, begin, cutter_screen, mine_screen, refresh, show, within};
