// What `cuts` does with a byte, with a run of bytes, and with standard input.
ghost use Rattle.std.specs.Prelude.{◌*◌, ◌≤◌, ◌≡◌, length};
ghost use Rattle.text.specs.Text.{LINE};
ghost use Rattle.lines.specs.Cuts.{cut_start, cut_numbers, said_of, cut_byte, CutRan};
ghost use Rattle.lines.specs.Runs.{said};

use crate::playing::{Played, Run, Runnable, Said, run_bytes, says};
use crate::reading::play;
use controls::{DOWN, LEFT, RIGHT, UP};
use cutter::CutterAnswer;
use cutter_ground::{CB_FILLED, CB_TRAIL, black_count, count_of};
use cutter_state::Cutter;
use refusal::Refusal;
use text::{NUMBERS, Says};

// The draws of the start: a creature at (10,10), velocity (1,1).
const START: [u8; 4] = [9, 9, 1, 1];

// The start: level 1, 3 lives, one creature.
#[tactic(auto, unfolding(crate::specs::Cuts::cut_start))]
pub fn cut_start() -> Cutter
    ensures { result ≡ cut_start }
{
    cutter::new_round(&START).game
}

// The numbers of a line.
pub fn cut_numbers(c: Cutter) -> [u64; NUMBERS]
    ensures { result ≡ cut_numbers c }
{
    [
        c.px as u64,
        c.py as u64,
        black_count(&c.grid) as u64,
        count_of(&c.grid, CB_FILLED) as u64,
        count_of(&c.grid, CB_TRAIL) as u64,
        c.count as u64,
        c.dead as u64,
    ]
}

// The game becomes that of a call's answer; what is said of it.
#[tactic(auto, unfolding(crate::specs::Cuts::said_of))]
fn take(c: &mut Cutter, a: CutterAnswer) -> Says
    ensures { said result c.new ≡ said_of a }
{
    *c = a.game;
    says(a.refusal)
}

// One byte: 5 8 7 9 direction, s step, e creatures, r respawn; newline is ignored, others are refused.
#[tactic(auto, unfolding(crate::specs::Cuts::cut_byte))]
fn press(c: &mut Cutter, b: u8) -> Says
    ensures { said result c.new ≡ cut_byte c.old b }
{
    let game = *c;
    match b {
        b'\n' => Says::Nothing,
        b'5' => take(c, cutter::direction(game, UP)),
        b'8' => take(c, cutter::direction(game, DOWN)),
        b'7' => take(c, cutter::direction(game, LEFT)),
        b'9' => take(c, cutter::direction(game, RIGHT)),
        b's' => take(c, cutter::step_player(game)),
        b'e' => take(c, cutter::step_enemies(game)),
        b'r' => take(c, cutter::respawn(game)),
        _ => Says::Refused(Refusal::Command),
    }
}

// The same on a game by value.
pub fn cut_byte(c: Cutter, b: u8) -> Said<Cutter>
    ensures { result ≡ cut_byte c b }
{
    let mut game = c;
    let says = press(&mut game, b);
    Said { says, game }
}

impl Played for Cutter {
    ghost started = { cut_start };

    ghost numbers_of = { cut_numbers };

    ghost byte_of = { cut_byte };

    fn start() -> Cutter {
        cut_start()
    }

    fn numbers(&self) -> [u64; NUMBERS] {
        cut_numbers(*self)
    }

    fn byte(&mut self, b: u8) -> Says {
        press(self, b)
    }
}

// A run of bytes: plays them, and puts their lines at the start of `out`.
pub fn cut_run(c: Cutter, parted: bool, bytes: &[u8], out: &mut [u8]) -> Run<Cutter>
    requires { length bytes.now * LINE ≤ length out.old }
    ensures { CutRan parted c bytes.now out.old result out.new }
{
    run_bytes(c, parted, bytes, out)
}

impl Runnable for Cutter {
    fn run(self, parted: bool, bytes: &[u8], out: &mut [u8]) -> Run<Cutter> {
        cut_run(self, parted, bytes, out)
    }
}

// Plays standard input; where it is parted into scripts, each of them starts anew.
pub fn play_cuts(rt: &(impl Input + Print + Eprint), parted: bool) {
    play(rt, cut_start(), parted);
}
