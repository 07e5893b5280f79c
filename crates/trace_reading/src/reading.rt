// A trace from standard input to its end, entry by entry.
ghost use Rattle.std.specs.Prelude.{IfSome, ◌≡◌, ◌<◌, length, take};
ghost use Rattle.trace_words.specs.Numbers.{InWord};
ghost use Rattle.trace_reading.specs.Run.{HEADER, head_of, found_of, is_same, is_unread, after_of};
ghost use Rattle.trace_reading.specs.CodeBuffers.{BODY, MOST, Lengths, Buffers};
ghost use Rattle.trace_reading.specs.CodeTurns.{Turns};
ghost use Rattle.trace_reading.specs.Told.{length_after, Ran};

use crate::entry::{SET, judge};
use crate::telling::{say_difference, say_nothing, say_verdict};
use trace_verdict::{Head, Part};
use trace_words::{put_cells, word};

// A header's bytes.
const HEADER: usize = 12;

// The bytes of three parts at most, and of one.
const BODY: usize = 196608;

const MOST: usize = 65536;

// An entry as it was read: whether all of it is there, what its header tells, and the lengths of its
// parts.
#[derive(Clone, Copy)]
struct Shape {
    whole: bool,
    head: Head,
    args: usize,
    state: usize,
    result: usize,
}

// A run so far: entries, bytes, calls and differences, and the length of the current state.
#[derive(Clone, Copy)]
struct Run {
    entries: u64,
    offset: u64,
    calls: u64,
    differ: u64,
    state: usize,
}

#[derive(Clone, Copy)]
struct Turned {
    run: Run,
    more: bool,
}

fn length_at(header: &[u8], at: usize) -> usize
    requires { InWord header.now at 2 }
    ensures { result < MOST }
{
    word(header, at, 2) as usize
}

fn head_of(header: &[u8]) -> Head
    requires { length header.now ≡ HEADER }
    ensures { result ≡ head_of header.now }
{
    Head {
        call: header[0],
        refusal: header[1],
        place: word(header, 10, 2) as usize,
        answer: header[2],
    }
}

// Reads an entry: its header, and its three parts into `body`. None where the trace is over.
fn read_entry(rt: &(impl Input + Eprint), body: &mut [u8]) -> Option<Shape>
    requires { length body.old ≡ BODY }
    ensures lengths { IfSome result (λ e. Lengths e.args e.state e.result) }
    ensures kept { length body.new ≡ BODY }
{
    let mut header = [0u8; HEADER];
    let got = streams::read_full(rt, &mut header);
    if got == 0 {
        return None;
    }
    let spare = header[3];
    let args = length_at(&header, 4);
    let state = length_at(&header, 6);
    let result = length_at(&header, 8);
    let n = args + state + result;
    let read = streams::read_full(rt, &mut body[..n]);
    Some(Shape {
        whole: (got == HEADER) & (spare == 0) & (read == n),
        head: head_of(&header),
        args,
        state,
        result,
    })
}

// What is found of an entry that was read.
#[tactic(auto, unfolding(crate::specs::Run::found_of))]
fn judged(e: Shape, body: &[u8], current: &[u8]) -> Part
    requires { Lengths e.args e.state e.result × (length body.now ≡ BODY) }
    ensures { result ≡ found_of e body.now current.now }
{
    let a = e.args;
    let s = a + e.state;
    let r = s + e.result;
    if e.whole {
        return judge(e.head, &body[..a], &body[a..s], &body[s..r], current);
    }
    Part::Unread
}

// The state that an entry gives becomes the current one, of which n bytes stood; its length.
fn keep(e: Shape, n: usize, body: &[u8], current: &mut [u8]) -> usize
    requires { Lengths e.args e.state e.result × Buffers body.now current.old n }
    ensures { Buffers body.now current.new result × (result ≡ length_after e.state n) }
{
    let a = e.args;
    let len = e.state;
    if len == 0 {
        return n;
    }
    let s = a + len;
    put_cells(&body[a..s], current, 0);
    len
}

fn is_same(part: Part) -> bool
    ensures { result ≡ is_same part }
{
    matches!(part, Part::Same)
}

fn is_unread(part: Part) -> bool
    ensures { result ≡ is_unread part }
{
    matches!(part, Part::Unread)
}

// The first difference is told, or each of them.
fn tell(rt: &(impl Print + Eprint), run: Run, each: bool, call: u8, part: Part) {
    if is_same(part) {
        return;
    }
    if each | (run.differ == 0) {
        say_difference(rt, run.entries, run.offset, call, part);
    }
}

// The run after an entry.
#[tactic(auto, unfolding(crate::specs::Run::after_of))]
fn after(run: Run, e: Shape, part: Part, state: usize) -> Run
    requires { Lengths e.args e.state e.result }
    ensures { result ≡ after_of run e part state }
{
    let n = (HEADER + e.args + e.state + e.result) as u64;
    let makes_call = e.whole & (e.head.call != SET);
    Run {
        entries: run.entries.wrapping_add(1),
        offset: run.offset.wrapping_add(n),
        calls: run.calls.wrapping_add(makes_call as u64),
        differ: run.differ.wrapping_add(!is_same(part) as u64),
        state,
    }
}

// Reads an entry, makes its call, and tells what differs.
fn turn(
    rt: &(impl Input + Print + Eprint),
    run: Run,
    each: bool,
    body: &mut [u8],
    current: &mut [u8],
) -> Turned
    requires { Buffers body.old current.old run.state }
    ensures { Buffers body.new current.new result.run.state
        × Turns run body.new (take run.state current.old) result }
{
    let Some(e) = read_entry(rt, body) else {
        return Turned { run, more: false };
    };
    let n = run.state;
    let part = judged(e, body, &current[..n]);
    let state = keep(e, n, body, current);
    tell(rt, run, each, e.head.call, part);
    Turned {
        run: after(run, e, part, state),
        more: !is_unread(part),
    }
}

// The run over the entries of standard input. A proved loop has to end, and nothing says that the
// input does: so it counts its turns, up to a number that no run reaches.
fn read_all(rt: &(impl Input + Print + Eprint), each: bool) -> Run
    ensures { Ran result }
{
    let mut body = [0u8; BODY];
    let mut current = [0u8; MOST];
    let mut run = Run {
        entries: 0,
        offset: 0,
        calls: 0,
        differ: 0,
        state: 0,
    };
    for _ in 0..u64::MAX {
        let t = turn(rt, run, each, &mut body, &mut current);
        run = t.run;
        if !t.more {
            break;
        }
    }
    run
}

// Replays standard input.
pub fn replay(rt: &(impl Input + Print + Eprint), each: bool) {
    let run = read_all(rt, each);
    if run.entries == 0 {
        say_nothing(rt);
        return;
    }
    say_verdict(rt, run.calls, run.differ);
}
