// One entry of a trace: its call is made through the public calls, and what it gives is compared
// with what the entry tells.
ghost use Rattle.std.specs.Prelude.{◌≡◌, ◌||◌, [], ◌==◌};
ghost use Rattle.trace_states.specs.Mines.{MINE};
ghost use Rattle.trace_states.specs.Cutters.{CUTTER};
ghost use Rattle.trace_reading.specs.Entry.{set_to, judged};

use trace_calls::{on_cutter, on_mine};
use trace_questions::NONE;
use trace_states::{CUTTER, MINE};
use trace_verdict::{Head, Part};

// The entry that sets the current state.
pub const SET: u8 = 0;

// A state has the length of one of the games.
fn is_state(n: usize) -> bool
    ensures { result ≡ (n == MINE || n == CUTTER) }
{
    (n == MINE) | (n == CUTTER)
}

// The current state becomes the one given, and nothing else is told.
fn set(h: Head, args: &[u8], state: &[u8], res: &[u8]) -> Part
    ensures { result ≡ set_to h args.now [] state.now res.now }
{
    let untold = (h.refusal == NONE) & (h.place == 0) & (h.answer == NONE);
    let bare = (args.len() == 0) & (res.len() == 0);
    if untold & (bare & is_state(state.len())) {
        return Part::Same;
    }
    Part::Unread
}

// Makes the entry's call on the current state and compares.
pub fn judge(h: Head, args: &[u8], state: &[u8], res: &[u8], current: &[u8]) -> Part
    ensures { result ≡ judged h args.now current.now state.now res.now }
{
    if h.call == SET {
        return set(h, args, state, res);
    }
    if (state.len() == 0) | is_state(state.len()) {
        if current.len() == MINE {
            return on_mine(h, args, current, state, res);
        }
        if current.len() == CUTTER {
            return on_cutter(h, args, current, state, res);
        }
        return Part::Unread;
    }
    Part::Unread
}
