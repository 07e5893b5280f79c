// From standard input to standard output, to the end of the input.
use crate::playing::Runnable;

// Bytes read at a time, so many that their lines fit io's large buffer.
const READ: usize = 256;

// Reads once, plays what came and writes its lines. Gives the game where there may be more.
fn turn<G: Runnable>(rt: &(impl Input + Print + Eprint), game: G, parted: bool) -> Option<G> {
    let mut input = [0u8; READ];
    let n = streams::read(rt, &mut input);
    if n == 0 {
        return None;
    }
    let mut out = io::large_buffer();
    let run = game.run(parted, &input[..n], &mut out);
    let end = run.end;
    if !streams::write(rt, &out[..end]) {
        return None;
    }
    Some(run.game)
}

// A proved loop has to end, and nothing says that the input does: so it counts its turns, up to
// a number that no run reaches.
pub fn play<G: Runnable>(rt: &(impl Input + Print + Eprint), start: G, parted: bool) {
    let mut game = start;
    for _ in 0..u64::MAX {
        match turn(rt, game, parted) {
            Some(next) => game = next,
            None => return,
        }
    }
}
