// Block Mine: the public calls.
#![tactic(auto)]

mod calls;
mod picture;
mod question;
mod turn;

pub use calls::{MineAnswer, gravity, load, move_enemies, step_player};
pub use picture::render;
pub use question::{who, who_of};
pub use turn::{pass, pass_marks};
