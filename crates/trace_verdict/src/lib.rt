// What an entry tells, against what its call gave.
#![tactic(auto)]

ghost use Rattle.std.specs.Prelude.{◌-◌, ◌≡◌};
ghost use Rattle.trace_verdict.specs.Compare.{first_difference, RECORD, placed, theirs, rewritten, place_told, compared};

use refusal::{Checked, Numbered};

// The part of an entry that differs, with its first byte where it has several. Unread is an entry
// that can't be read.
#[derive(Clone, Copy)]
pub enum Part {
    Same,
    Unread,
    Refusal,
    Place,
    Answer,
    State(usize),
    Record(usize),
    Result(usize),
}

// What the header of an entry tells.
#[derive(Clone, Copy)]
pub struct Head {
    pub call: u8,
    pub refusal: u8,
    pub place: usize,
    pub answer: u8,
}

// The clock marks at the end of a state.
pub const RECORD: usize = 8;

// The first place where two runs of bytes differ; the shorter's end where it is cut off.
pub fn differs(a: &[u8], b: &[u8]) -> Option<usize>
    ensures { result ≡ first_difference a.now b.now }
{
    let both = a.len().min(b.len());
    for i in 0..both {
        if a[i] != b[i] {
            return Some(i);
        }
    }
    if both < a.len() {
        return Some(both);
    }
    if both < b.len() {
        return Some(both);
    }
    None
}

// The part that byte i of a state of n bytes belongs to.
#[tactic(auto, unfolding(crate::specs::Compare::placed))]
fn part_at(i: usize, n: usize) -> Part
    ensures { result ≡ placed n i }
{
    let record = n.saturating_sub(RECORD);
    if i < record {
        return Part::State(i);
    }
    Part::Record(i - record)
}

// No state in the entry stands for an unchanged one.
#[tactic(auto, unfolding(crate::specs::Compare::theirs))]
fn state_differs(ours: &[u8], current: &[u8], state: &[u8]) -> Option<usize>
    ensures { result ≡ first_difference (theirs current.now state.now) ours.now }
{
    if state.len() == 0 {
        return differs(current, ours);
    }
    differs(state, ours)
}

// An unchanged state is not written.
#[tactic(auto, unfolding(crate::specs::Compare::rewritten))]
fn is_rewritten(current: &[u8], state: &[u8]) -> bool
    ensures { result ≡ rewritten current.now state.now }
{
    if state.len() == 0 {
        return false;
    }
    differs(state, current).is_none()
}

// A place from this one on is told as this one.
pub const FAR: usize = 65535;

#[tactic(auto, unfolding(crate::specs::Compare::place_told))]
fn place_told(at: usize) -> usize
    ensures { result ≡ place_told at }
{
    at.min(FAR)
}

// The whole of an entry against what its call gave: the refusal and its place, the answer, the
// state with its record, and what it told.
#[tactic(auto, unfolding(crate::specs::Compare::compared))]
pub fn compared_with(
    h: Head,
    refusal: Checked,
    answer: u8,
    ours: &[u8],
    current: &[u8],
    state: &[u8],
    told: &[u8],
    res: &[u8],
) -> Part
    ensures { result ≡ compared h current.now state.now res.now refusal answer ours.now told.now }
{
    let Numbered { number, at } = Numbered::from(refusal);
    if h.refusal != number {
        return Part::Refusal;
    }
    if h.place != place_told(at) {
        return Part::Place;
    }
    if h.answer != answer {
        return Part::Answer;
    }
    if let Some(i) = state_differs(ours, current, state) {
        return part_at(i, ours.len());
    }
    if is_rewritten(current, state) {
        return Part::State(0);
    }
    if let Some(i) = differs(res, told) {
        return Part::Result(i);
    }
    Part::Same
}
