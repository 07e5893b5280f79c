// One turn of each game at a console, over the public calls: the marks, the draws, and the end of a round.
#![tactic(auto)]

mod cut;
mod draws;
mod mining;

ghost use Rattle.std.specs.Prelude.{◌≡◌};
ghost use Rattle.console_turns.specs.Turns.{standing, pressed_in};

use answer::Answer;
pub use cut::{CutterPlay, ROUND, cutter_draws, cutter_start, cutter_turn};
pub use draws::{MOST_DRAWS, to_draws};
pub use mining::{MinePlay, mine_start, mine_turn};
use refusal::Checked;

// How a round stands: the numbers of a pass's answers, and 5 where a call was refused.
pub const GOING_ON: u8 = 0;

pub const WON: u8 = 1;

pub const DEAD: u8 = 2;

pub const OVER: u8 = 3;

pub const QUIT: u8 = 4;

pub const REFUSED: u8 = 5;

#[tactic(auto, unfolding(crate::specs::Turns::standing))]
fn stands(checked: Checked, said: Answer) -> u8
    ensures { result ≡ standing checked said }
{
    match checked {
        Ok(()) => answer::number(said),
        Err(_) => REFUSED,
    }
}

// Whether a key is among those pressed.
fn pressed(keys: &[u8], key: u8) -> bool
    ensures { result ≡ pressed_in keys.now key }
{
    keys.iter().any(|k| *k == key)
}
