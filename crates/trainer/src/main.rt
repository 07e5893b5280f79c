// Block Cutter played by bytes as in `cuts`, with a lesson where a cut closes: before the line of
// that step each sweep, the last one that changes nothing included, then each region.
//
// stdin: a cut along the border that leaves 54 regions, six of them not counted, by 28 sweeps; six
// more, of 8 regions, of two and of one, by 2 to 9 sweeps; and a byte that is refused. stdout: what
// the oracle's `trainer_oracle` prints for it.
#![tactic(auto)]

mod lesson;

use cutter_state::Cutter;
use lesson::tell_closing;
use lines::{Played, cut_numbers, cut_start};
use text::{LINE, Says};

// Bytes read at a time.
const READ: usize = 256;

// The line that `cuts` prints; false where that failed.
fn tell_line(rt: &(impl Print + Eprint), says: Says, game: Cutter) -> bool {
    let mut out = [0u8; LINE];
    let end = text::put_line(says, cut_numbers(game), &mut out, 0);
    streams::write(rt, &out[..end])
}

// Only a step that closes a cut ends the line.
fn tell_step(rt: &(impl Print + Eprint), c: Cutter, game: Cutter) {
    if c.trailing && !game.trailing {
        tell_closing(rt, c, game);
    }
}

// One byte, played where the game lies; none where its line could not be written.
fn play_byte(rt: &(impl Print + Eprint), c: &mut Cutter, b: u8) -> Option<()> {
    let before = *c;
    let says = c.byte(b);
    if b == b's' {
        tell_step(rt, before, *c);
    }
    tell_line(rt, says, *c).then_some(())
}

fn play_bytes(rt: &(impl Print + Eprint), c: &mut Cutter, bytes: &[u8]) -> Option<()> {
    for b in bytes {
        play_byte(rt, c, *b)?;
    }
    Some(())
}

// Reads once and plays what came; none where there is no more to play.
fn take_turn(rt: &(impl Input + Print + Eprint), c: &mut Cutter) -> Option<()> {
    let mut input = [0u8; READ];
    let n = streams::read(rt, &mut input);
    if n == 0 {
        return None;
    }
    play_bytes(rt, c, &input[..n])
}

// To the end of the input: in more turns than any run uses up.
fn main(rt: HostRuntime) {
    let mut c = cut_start();
    for _ in 0..u64::MAX {
        if take_turn(&rt, &mut c).is_none() {
            return;
        }
    }
}
