// What a program does with a run of bytes, whatever the game.
ghost use Rattle.std.specs.Prelude.{◌*◌, ◌≤◌, ◌≡◌, ℕ, List, length};
ghost use Rattle.text.specs.Text.{LINE};
ghost use Rattle.lines.specs.declared.playing.Said.{Said};
ghost use Rattle.lines.specs.Runs.{says_of, said, next, Ran};

use crate::BAR;
use refusal::Checked;
use text::{NUMBERS, Says};

// What is said of a byte, and the game after it.
#[derive(Clone, Copy)]
pub struct Said<G> {
    pub says: Says,
    pub game: G,
}

// The game after some bytes, and where their lines end.
#[derive(Clone, Copy)]
pub struct Run<G> {
    pub game: G,
    pub end: usize,
}

// A game that is played by bytes.
pub trait Played: Copy {
    ghost started: { Self };

    ghost numbers_of: { Self → List ℕ };

    ghost byte_of: { Self → ℕ → Said Self };

    // The game that each script begins with.
    fn start() -> Self
        ensures { result ≡ started };

    // The numbers of a line.
    fn numbers(&self) -> [u64; NUMBERS]
        ensures { result ≡ numbers_of self.now };

    // What one byte does, where the game lies; what is said of it.
    fn byte(&mut self, b: u8) -> Says
        ensures { said result self.new ≡ byte_of self.old b };
}

// A game whose runs of bytes are played: what `mines` and `cuts` do with what they read.
pub trait Runnable: Played {
    fn run(self, parted: bool, bytes: &[u8], out: &mut [u8]) -> Run<Self>
        requires { length bytes.now * LINE ≤ length out.old }
        ensures { Ran Self.byte_of Self.started Self.numbers_of parted self bytes.now out.old result out.new };
}

// What a call says: the numbers of its game, or why it is refused.
pub fn says(checked: Checked) -> Says
    ensures { result ≡ says_of checked }
{
    match checked {
        Ok(()) => Says::Numbers,
        Err(no) => Says::Refused(no),
    }
}

// The next byte of a run, where the game lies; where the run is parted into scripts, each of them starts anew.
#[tactic(auto, unfolding(crate::specs::Runs::next))]
fn advance<G: Played>(game: &mut G, parted: bool, b: u8) -> Says
    ensures { said result game.new ≡ next G.byte_of G.started parted game.old b }
{
    if parted & (b == BAR) {
        *game = G::start();
        return Says::Nothing;
    }
    game.byte(b)
}

// The same on a game by value.
pub fn next<G: Played>(game: G, parted: bool, b: u8) -> Said<G>
    ensures { result ≡ next G.byte_of G.started parted game b }
{
    let mut game = game;
    let says = advance(&mut game, parted, b);
    Said { says, game }
}

// A run of bytes: plays them, and puts their lines at the start of `out`.
pub fn run_bytes<G: Played>(start: G, parted: bool, bytes: &[u8], out: &mut [u8]) -> Run<G>
    requires { length bytes.now * LINE ≤ length out.old }
    ensures { Ran G.byte_of G.started G.numbers_of parted start bytes.now out.old result out.new }
{
    let mut game = start;
    let mut end: usize = 0;
    for byte in bytes {
        let says = advance(&mut game, parted, *byte);
        end = text::put_line(says, game.numbers(), out, end);
    }
    Run { game, end }
}
