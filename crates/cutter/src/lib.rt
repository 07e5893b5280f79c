// Block Cutter: the public calls.
#![tactic(auto)]

mod calls;
mod picture;
mod question;
mod turn;

pub use calls::{
    CutterAnswer, Ground, direction, ground_report, new_level, new_round, respawn, step_by_sweeps,
    step_enemies, step_player,
};
pub use picture::render;
pub use question::{who, who_of};
pub use turn::{pass, pass_marks};
