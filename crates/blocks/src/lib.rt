// A frame as text: two rows of pixels to a line, a block for each pair.
#![tactic(auto)]

ghost use Rattle.std.specs.Prelude.{◌≡◌, ◌+◌, ◌≤◌, length};
ghost use Rattle.blocks.specs.CodeRoom.{Room, Line};

use frame::{FRAME_LEN, PAGE_LEN};

// Lines of text, two rows of pixels each.
const LINES: usize = 32;

const PAIRS: usize = 4;
// A line's bytes at most: three for each column, and its end.
const LINE: usize = 385;

// Puts the block for a pair of pixels (1 upper, 2 lower, 3 both) at `at`; the next place.
fn put_block(pair: u8, line: &mut [u8; LINE], at: usize) -> usize
    requires { Room line.old at }
    ensures { (result ≤ at + 3) × (length line.new ≡ 385) }
{
    let last = match pair {
        0 => {
            line[at] = b' ';
            return at + 1;
        }
        1 => 0x80,
        2 => 0x84,
        _ => 0x88,
    };
    line[at..at + 3].copy_from_slice(&[0xE2, 0x96, last]);
    at + 3
}

// Writes line y; false where that failed.
fn put_line(rt: &(impl Print + Eprint), frame: &[u8; FRAME_LEN], y: usize) -> bool
    requires { Line frame.now y }
{
    let start = y / PAIRS * PAGE_LEN;
    let low = y % PAIRS * 2;
    let mut line = [0u8; LINE];
    let mut end: usize = 0;
    for byte in &frame[start..start + PAGE_LEN] {
        end = put_block((*byte >> low) & 3, &mut line, end);
    }
    line[end] = b'\n';
    streams::write(rt, &line[..end + 1])
}

// Writes a whole frame; false where that failed.
pub fn put_frame(rt: &(impl Print + Eprint), frame: &[u8; FRAME_LEN]) -> bool
    requires { length frame.now ≡ 1024 }
{
    for y in 0..LINES {
        if !put_line(rt, frame, y) {
            return false;
        }
    }
    true
}
