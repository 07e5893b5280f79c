// The calls of Block Mine.
ghost use Rattle.std.specs.Prelude.{◌≡◌, length};
ghost use Rattle.trace_states.specs.Mines.{MINE, mine_of};
ghost use Rattle.trace_calls.specs.Shared.{marks_at, mine_told};
ghost use Rattle.trace_calls.specs.Mines.{mine_moved, mine_fallen, mine_ticked, mine_passed, mine_pictured, mine_started};
ghost use Rattle.trace_calls.specs.Mines.{on_mine};

use crate::shared::{START, marks_of, mine_told, on_either, stale};
use mine::MineAnswer;
use mine_state::Mine;
use pace::Pace;
use trace_questions::NONE;
use trace_states::{MINE, mine_of};
use trace_verdict::{Head, Part, compared_with};
use trace_words::{MARK, word};

// Numbers of the calls.
const MOVE: u8 = 2;

const GRAVITY: u8 = 3;

const CREATURES: u8 = 4;

const PASS: u8 = 5;

const PICTURE: u8 = 6;

fn mine_answered(h: Head, a: MineAnswer, p: Pace, current: &[u8], state: &[u8], res: &[u8]) -> Part
    ensures { result ≡ mine_told h current.now state.now res.now a.refusal 0 a.game p }
{
    mine_told(h, a.refusal, NONE, a.game, p, current, state, res)
}

fn moved(h: Head, m: Mine, p: Pace, args: &[u8], current: &[u8], state: &[u8], res: &[u8]) -> Part
    ensures { result ≡ mine_moved h args.now current.now state.now res.now m p }
{
    if args.len() != 1 {
        return Part::Unread;
    }
    let a = mine::step_player(m, args[0]);
    mine_answered(h, a, p, current, state, res)
}

fn fallen(h: Head, m: Mine, p: Pace, args: &[u8], current: &[u8], state: &[u8], res: &[u8]) -> Part
    ensures { result ≡ mine_fallen h args.now current.now state.now res.now m p }
{
    if args.len() != 0 {
        return Part::Unread;
    }
    let a = mine::gravity(m);
    mine_answered(h, a, p, current, state, res)
}

fn ticked(h: Head, m: Mine, p: Pace, args: &[u8], current: &[u8], state: &[u8], res: &[u8]) -> Part
    ensures { result ≡ mine_ticked h args.now current.now state.now res.now m p }
{
    if args.len() != 0 {
        return Part::Unread;
    }
    let a = mine::move_enemies(m);
    mine_answered(h, a, p, current, state, res)
}

fn passed(h: Head, m: Mine, p: Pace, args: &[u8], current: &[u8], state: &[u8], res: &[u8]) -> Part
    ensures { result ≡ mine_passed h args.now current.now state.now res.now m p }
{
    if args.len() < MARK {
        return Part::Unread;
    }
    let time = word(args, 0, MARK) as u32;
    let t = mine::pass_marks(m, &args[MARK..], time, p.first, p.second);
    let after = Pace {
        first: t.first,
        second: t.second,
    };
    let q = t.passed;
    mine_told(
        h,
        q.refusal,
        answer::number(q.answer),
        q.game,
        after,
        current,
        state,
        res,
    )
}

fn pictured(h: Head, m: Mine, args: &[u8], current: &[u8], state: &[u8], res: &[u8]) -> Part
    ensures { result ≡ mine_pictured h args.now current.now state.now res.now m }
{
    if args.len() != 2 {
        return Part::Unread;
    }
    let n = word(args, 0, 2) as usize;
    let mut frame = stale();
    let no = mine::render(m, &mut frame[..n]);
    compared_with(h, no, NONE, current, current, state, &frame[..n], res)
}

fn started(h: Head, m: Mine, args: &[u8], current: &[u8], state: &[u8], res: &[u8]) -> Part
    ensures { result ≡ mine_started h args.now current.now state.now res.now m }
{
    if args.len() != MARK {
        return Part::Unread;
    }
    let p = pace::start(word(args, 0, MARK) as u32);
    mine_told(h, Ok(()), NONE, m, p, current, state, res)
}

pub fn on_mine(h: Head, args: &[u8], current: &[u8], state: &[u8], res: &[u8]) -> Part
    requires { length current.now ≡ MINE }
    ensures { result ≡ on_mine h args.now current.now state.now res.now
        (mine_of current.now) (marks_at current.now) }
{
    let m = mine_of(current);
    let p = marks_of(current);
    match h.call {
        MOVE => moved(h, m, p, args, current, state, res),
        GRAVITY => fallen(h, m, p, args, current, state, res),
        CREATURES => ticked(h, m, p, args, current, state, res),
        PASS => passed(h, m, p, args, current, state, res),
        PICTURE => pictured(h, m, args, current, state, res),
        START => started(h, m, args, current, state, res),
        _ => on_either(h, p, args, current, state, res),
    }
}
