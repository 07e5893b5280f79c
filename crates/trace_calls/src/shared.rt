// The calls that either game's state allows, and what the calls of both share.
ghost use Rattle.std.specs.Prelude.{◌≡◌, length, ◌≤◌};
ghost use Rattle.trace_verdict.specs.Compare.{RECORD};
ghost use Rattle.trace_calls.specs.Shared.{MOST, stale_of, marks_at, mine_told, cutter_told, cutter_made};
ghost use Rattle.trace_calls.specs.Either.{mine_loaded, round_begun, page_told, on_either};

use cutter_state::Cutter;
use mine_state::Mine;
use pace::Pace;
use refusal::Checked;
use trace_questions::{NONE, mine_asked, mover_asked};
use trace_states::{CUTTER, MINE, put_cutter, put_mine};
use trace_verdict::{Head, Part, compared_with};
use trace_words::{MARK, PLACE, put_pair, word};

// Numbers of the calls.
const LOAD: u8 = 1;

const MINE_WHO: u8 = 7;

const NEW_ROUND: u8 = 17;

const CUTTER_WHO: u8 = 26;

pub const START: u8 = 32;

const PAGE: u8 = 33;

// Each byte of a frame before its picture.
const STALE: u8 = 165;

// More than the bytes of any part of an entry.
pub const MOST: usize = 65536;

// A frame before its picture.
pub fn stale() -> [u8; MOST]
    ensures { result ≡ stale_of MOST }
{
    [STALE; MOST]
}

// The record at the end of a state.
pub fn marks_of(current: &[u8]) -> Pace
    requires { RECORD ≤ length current.now }
    ensures { result ≡ marks_at current.now }
{
    let n = current.len();
    Pace {
        first: word(current, n - trace_verdict::RECORD, MARK) as u32,
        second: word(current, n - MARK, MARK) as u32,
    }
}

// What a call without a result gave.
pub fn mine_told(
    h: Head,
    refusal: Checked,
    answer: u8,
    m: Mine,
    p: Pace,
    current: &[u8],
    state: &[u8],
    res: &[u8],
) -> Part
    ensures { result ≡ mine_told h current.now state.now res.now refusal answer m p }
{
    let mut ours = [0u8; MINE];
    put_mine(m, p.first, p.second, &mut ours);
    compared_with(h, refusal, answer, &ours, current, state, b"", res)
}

// What a call without a result gave.
pub fn cutter_told(
    h: Head,
    refusal: Checked,
    answer: u8,
    c: Cutter,
    p: Pace,
    current: &[u8],
    state: &[u8],
    res: &[u8],
) -> Part
    ensures { result ≡ cutter_told h current.now state.now res.now refusal answer c p }
{
    let mut ours = [0u8; CUTTER];
    put_cutter(c, p.first, p.second, &mut ours);
    compared_with(h, refusal, answer, &ours, current, state, b"", res)
}

// The bytes of what a search and a walk took.
const TAKEN: usize = 4;

// What a call gave that tells how many cells a search and a walk took.
pub fn cutter_made(
    h: Head,
    refusal: Checked,
    answer: u8,
    c: Cutter,
    p: Pace,
    searched: u16,
    walked: u16,
    current: &[u8],
    state: &[u8],
    res: &[u8],
) -> Part
    ensures { result ≡ cutter_made h current.now state.now res.now refusal answer c p searched walked }
{
    let mut ours = [0u8; CUTTER];
    put_cutter(c, p.first, p.second, &mut ours);
    let mut told = [0u8; TAKEN];
    put_pair(searched as u64, walked as u64, 2, &mut told, 0);
    compared_with(h, refusal, answer, &ours, current, state, &told, res)
}

fn load(h: Head, p: Pace, args: &[u8], current: &[u8], state: &[u8], res: &[u8]) -> Part
    ensures { result ≡ mine_loaded h args.now current.now state.now res.now p }
{
    if args.len() != 0 {
        return Part::Unread;
    }
    mine_told(h, Ok(()), NONE, mine::load(), p, current, state, res)
}

// A refused new round leaves the current state.
#[tactic(auto, unfolding(crate::specs::Either::round_begun))]
fn new_round(h: Head, p: Pace, draws: &[u8], current: &[u8], state: &[u8], res: &[u8]) -> Part
    ensures { result ≡ round_begun h draws.now current.now state.now res.now p }
{
    let a = cutter::new_round(draws);
    if a.refusal.is_err() {
        return compared_with(h, a.refusal, NONE, current, current, state, b"", res);
    }
    cutter_told(h, Ok(()), NONE, a.game, p, current, state, res)
}

fn page(h: Head, args: &[u8], current: &[u8], state: &[u8], res: &[u8]) -> Part
    ensures { result ≡ page_told h args.now current.now state.now res.now }
{
    if args.len() < PLACE {
        return Part::Unread;
    }
    let number = word(args, 0, PLACE) as usize;
    let told = frame::page(&args[PLACE..], number);
    compared_with(h, Ok(()), NONE, current, current, state, told, res)
}

pub fn on_either(h: Head, p: Pace, args: &[u8], current: &[u8], state: &[u8], res: &[u8]) -> Part
    ensures { result ≡ on_either h args.now current.now state.now res.now p }
{
    match h.call {
        LOAD => load(h, p, args, current, state, res),
        MINE_WHO => mine_asked(h, args, current, state, res),
        NEW_ROUND => new_round(h, p, args, current, state, res),
        CUTTER_WHO => mover_asked(h, args, current, state, res),
        PAGE => page(h, args, current, state, res),
        _ => Part::Unread,
    }
}
