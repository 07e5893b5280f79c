// What `mines` does with a byte, with a run of bytes, and with standard input.
ghost use Rattle.std.specs.Prelude.{◌*◌, ◌≤◌, ◌≡◌, length};
ghost use Rattle.text.specs.Text.{LINE};
ghost use Rattle.mine_rules.specs.Load.{loaded};
ghost use Rattle.lines.specs.Mines.{mine_numbers, said_of, mine_byte, MineRan};
ghost use Rattle.lines.specs.Runs.{said};

use crate::playing::{Played, Run, Runnable, Said, run_bytes, says};
use crate::reading::play;
use controls::{DOWN, LEFT, RIGHT, UP};
use mine::MineAnswer;
use mine_state::Mine;
use refusal::Refusal;
use text::{NUMBERS, Says};

// The numbers of a line.
pub fn mine_numbers(m: Mine) -> [u64; NUMBERS]
    ensures { result ≡ mine_numbers m }
{
    [
        m.px as u64,
        m.py as u64,
        m.coins as u64,
        m.needed as u64,
        m.count as u64,
        m.dead as u64,
        m.won as u64,
    ]
}

// The game becomes that of a call's answer; what is said of it.
#[tactic(auto, unfolding(crate::specs::Mines::said_of))]
fn take(m: &mut Mine, a: MineAnswer) -> Says
    ensures { said result m.new ≡ said_of a }
{
    *m = a.game;
    says(a.refusal)
}

// One byte: L load, 5 8 7 9 move, g gravity, c creatures; newline is ignored, others are refused.
#[tactic(auto, unfolding(crate::specs::Mines::mine_byte))]
fn press(m: &mut Mine, b: u8) -> Says
    ensures { said result m.new ≡ mine_byte m.old b }
{
    let game = *m;
    match b {
        b'\n' => Says::Nothing,
        b'L' => {
            *m = mine::load();
            Says::Numbers
        }
        b'5' => take(m, mine::step_player(game, UP)),
        b'8' => take(m, mine::step_player(game, DOWN)),
        b'7' => take(m, mine::step_player(game, LEFT)),
        b'9' => take(m, mine::step_player(game, RIGHT)),
        b'g' => take(m, mine::gravity(game)),
        b'c' => take(m, mine::move_enemies(game)),
        _ => Says::Refused(Refusal::Command),
    }
}

// The same on a game by value.
pub fn mine_byte(m: Mine, b: u8) -> Said<Mine>
    ensures { result ≡ mine_byte m b }
{
    let mut game = m;
    let says = press(&mut game, b);
    Said { says, game }
}

impl Played for Mine {
    ghost started = { loaded };

    ghost numbers_of = { mine_numbers };

    ghost byte_of = { mine_byte };

    fn start() -> Mine {
        mine::load()
    }

    fn numbers(&self) -> [u64; NUMBERS] {
        mine_numbers(*self)
    }

    fn byte(&mut self, b: u8) -> Says {
        press(self, b)
    }
}

// A run of bytes: plays them, and puts their lines at the start of `out`.
pub fn mine_run(m: Mine, parted: bool, bytes: &[u8], out: &mut [u8]) -> Run<Mine>
    requires { length bytes.now * LINE ≤ length out.old }
    ensures { MineRan parted m bytes.now out.old result out.new }
{
    run_bytes(m, parted, bytes, out)
}

impl Runnable for Mine {
    fn run(self, parted: bool, bytes: &[u8], out: &mut [u8]) -> Run<Mine> {
        mine_run(self, parted, bytes, out)
    }
}

// Plays standard input; where it is parted into scripts, each of them starts anew.
pub fn play_mines(rt: &(impl Input + Print + Eprint), parted: bool) {
    play(rt, mine::load(), parted);
}
