// The calls of Block Cutter.
ghost use Rattle.std.specs.Prelude.{◌≡◌, length};
ghost use Rattle.trace_states.specs.Cutters.{CUTTER, cutter_of};
ghost use Rattle.trace_calls.specs.Shared.{marks_at, cutter_told, cutter_made};
ghost use Rattle.trace_calls.specs.Cutters.{cutter_directed, cutter_stepped, cutter_swept, cutter_ticked, cutter_respawned};
ghost use Rattle.trace_calls.specs.Cutters.{cutter_levelled, cutter_passed, cutter_pictured, cutter_reported, cutter_started};
ghost use Rattle.trace_calls.specs.Cutters.{on_cutter};

use crate::shared::{START, cutter_made, cutter_told, marks_of, on_either, stale};
use cutter::CutterAnswer;
use cutter_state::Cutter;
use pace::Pace;
use trace_questions::NONE;
use trace_states::{CUTTER, cutter_of};
use trace_verdict::{Head, Part, compared_with};
use trace_words::{MARK, put_pair, word};

// Numbers of the calls.
const DIRECTION: u8 = 18;

const STEP: u8 = 19;

const CREATURES: u8 = 20;

const RESPAWN: u8 = 21;

const LEVEL: u8 = 22;

const PASS: u8 = 23;

const PICTURE: u8 = 24;

const REPORT: u8 = 25;

const STEP_BY_SWEEPS: u8 = 29;

// A reading and a number of keys, which stand before the keys of a pass.
const BEFORE_KEYS: usize = 6;

// A report's bytes.
const REPORTED: usize = 8;

fn cutter_answered(
    h: Head,
    a: CutterAnswer,
    p: Pace,
    current: &[u8],
    state: &[u8],
    res: &[u8],
) -> Part
    ensures { result ≡ cutter_told h current.now state.now res.now a.refusal 0 a.game p }
{
    cutter_told(h, a.refusal, NONE, a.game, p, current, state, res)
}

fn answered_made(
    h: Head,
    a: CutterAnswer,
    p: Pace,
    current: &[u8],
    state: &[u8],
    res: &[u8],
) -> Part
    ensures { result ≡ cutter_made h current.now state.now res.now a.refusal 0 a.game p a.searched a.walked }
{
    cutter_made(
        h, a.refusal, NONE, a.game, p, a.searched, a.walked, current, state, res,
    )
}

fn directed(
    h: Head,
    c: Cutter,
    p: Pace,
    args: &[u8],
    current: &[u8],
    state: &[u8],
    res: &[u8],
) -> Part
    ensures { result ≡ cutter_directed h args.now current.now state.now res.now c p }
{
    if args.len() != 1 {
        return Part::Unread;
    }
    let a = cutter::direction(c, args[0]);
    cutter_answered(h, a, p, current, state, res)
}

fn stepped(
    h: Head,
    c: Cutter,
    p: Pace,
    args: &[u8],
    current: &[u8],
    state: &[u8],
    res: &[u8],
) -> Part
    ensures { result ≡ cutter_stepped h args.now current.now state.now res.now c p }
{
    if args.len() != 0 {
        return Part::Unread;
    }
    let a = cutter::step_player(c);
    answered_made(h, a, p, current, state, res)
}

fn swept(h: Head, c: Cutter, p: Pace, args: &[u8], current: &[u8], state: &[u8], res: &[u8]) -> Part
    ensures { result ≡ cutter_swept h args.now current.now state.now res.now c p }
{
    if args.len() != 0 {
        return Part::Unread;
    }
    let a = cutter::step_by_sweeps(c);
    answered_made(h, a, p, current, state, res)
}

fn ticked(
    h: Head,
    c: Cutter,
    p: Pace,
    args: &[u8],
    current: &[u8],
    state: &[u8],
    res: &[u8],
) -> Part
    ensures { result ≡ cutter_ticked h args.now current.now state.now res.now c p }
{
    if args.len() != 0 {
        return Part::Unread;
    }
    let a = cutter::step_enemies(c);
    cutter_answered(h, a, p, current, state, res)
}

fn respawned(
    h: Head,
    c: Cutter,
    p: Pace,
    args: &[u8],
    current: &[u8],
    state: &[u8],
    res: &[u8],
) -> Part
    ensures { result ≡ cutter_respawned h args.now current.now state.now res.now c p }
{
    if args.len() != 0 {
        return Part::Unread;
    }
    let a = cutter::respawn(c);
    answered_made(h, a, p, current, state, res)
}

fn levelled(
    h: Head,
    c: Cutter,
    p: Pace,
    draws: &[u8],
    current: &[u8],
    state: &[u8],
    res: &[u8],
) -> Part
    ensures { result ≡ cutter_levelled h draws.now current.now state.now res.now c p }
{
    let a = cutter::new_level(c, draws);
    cutter_answered(h, a, p, current, state, res)
}

fn passed(
    h: Head,
    c: Cutter,
    p: Pace,
    args: &[u8],
    current: &[u8],
    state: &[u8],
    res: &[u8],
) -> Part
    ensures { result ≡ cutter_passed h args.now current.now state.now res.now c p }
{
    if args.len() < BEFORE_KEYS {
        return Part::Unread;
    }
    let time = word(args, 0, MARK) as u32;
    let n = word(args, MARK, 2) as usize;
    let at = BEFORE_KEYS + n;
    if args.len() < at {
        return Part::Unread;
    }
    let t = cutter::pass_marks(
        c,
        &args[BEFORE_KEYS..at],
        &args[at..],
        time,
        p.first,
        p.second,
    );
    let after = Pace {
        first: t.first,
        second: t.second,
    };
    let q = t.passed;
    cutter_made(
        h,
        q.refusal,
        answer::number(q.answer),
        q.game,
        after,
        q.searched,
        q.walked,
        current,
        state,
        res,
    )
}

fn pictured(h: Head, c: Cutter, args: &[u8], current: &[u8], state: &[u8], res: &[u8]) -> Part
    ensures { result ≡ cutter_pictured h args.now current.now state.now res.now c }
{
    if args.len() != 2 {
        return Part::Unread;
    }
    let n = word(args, 0, 2) as usize;
    let mut frame = stale();
    let no = cutter::render(c, &mut frame[..n]);
    compared_with(h, no, NONE, current, current, state, &frame[..n], res)
}

fn reported(h: Head, c: Cutter, args: &[u8], current: &[u8], state: &[u8], res: &[u8]) -> Part
    ensures { result ≡ cutter_reported h args.now current.now state.now res.now c }
{
    if args.len() != 0 {
        return Part::Unread;
    }
    let g = cutter::ground_report(c);
    let mut told = [0u8; REPORTED];
    put_pair(g.black as u64, g.claimed as u64, 2, &mut told, 0);
    put_pair(g.line as u64, g.share as u64, 2, &mut told, 4);
    compared_with(h, g.refusal, NONE, current, current, state, &told, res)
}

fn started(h: Head, c: Cutter, args: &[u8], current: &[u8], state: &[u8], res: &[u8]) -> Part
    ensures { result ≡ cutter_started h args.now current.now state.now res.now c }
{
    if args.len() != MARK {
        return Part::Unread;
    }
    let p = pace::start(word(args, 0, MARK) as u32);
    cutter_told(h, Ok(()), NONE, c, p, current, state, res)
}

pub fn on_cutter(h: Head, args: &[u8], current: &[u8], state: &[u8], res: &[u8]) -> Part
    requires { length current.now ≡ CUTTER }
    ensures { result ≡ on_cutter h args.now current.now state.now res.now
        (cutter_of current.now) (marks_at current.now) }
{
    let c = cutter_of(current);
    let p = marks_of(current);
    match h.call {
        DIRECTION => directed(h, c, p, args, current, state, res),
        STEP => stepped(h, c, p, args, current, state, res),
        CREATURES => ticked(h, c, p, args, current, state, res),
        RESPAWN => respawned(h, c, p, args, current, state, res),
        LEVEL => levelled(h, c, p, args, current, state, res),
        PASS => passed(h, c, p, args, current, state, res),
        PICTURE => pictured(h, c, args, current, state, res),
        REPORT => reported(h, c, args, current, state, res),
        STEP_BY_SWEEPS => swept(h, c, p, args, current, state, res),
        START => started(h, c, args, current, state, res),
        _ => on_either(h, p, args, current, state, res),
    }
}
