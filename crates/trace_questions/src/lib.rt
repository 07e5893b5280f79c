// The questions, on a list of any length: asked of as many creatures at a time as a game holds.
#![tactic(auto)]

ghost use Rattle.std.specs.Prelude.{◌*◌, ◌≤◌, length, ◌≡◌};
ghost use Rattle.trace_states.specs.Mines.{ENEMY};
ghost use Rattle.trace_states.specs.Cutters.{MOVER};
ghost use Rattle.mine.specs.Question as Mine;
ghost use Rattle.cutter.specs.Question as Cutter;
ghost use Rattle.trace_questions.specs.Lists.{InList, enemy_or, enemies_from, enemies_in, mover_or, movers_from, movers_in};
ghost use Rattle.trace_questions.specs.Asked.{both_found, Fits, found_told, mine_asked, mover_asked};

use cutter_ground::Mover;
use found::Found;
use mine_state::Enemy;
use std::array;
use trace_states::{enemy_of, mover_of};
use trace_verdict::{Head, Part, compared_with};
use trace_words::{PLACE, put_pair, word};

// An answer, or the number of a refusal, that tells nothing.
pub const NONE: u8 = 0;

// The place that is asked for, which stands before the list.
const BEFORE_LIST: usize = 16;

// The bytes of an answer that is not nobody.
const ANSWER: usize = 16;

// A creature's bytes.
const ENEMY: usize = 17;

const MOVER: usize = 4;

// The index and the number in eight bytes each, or nothing for nobody.
#[tactic(auto, unfolding(crate::specs::Asked::found_told))]
fn told(h: Head, f: Option<Found>, current: &[u8], state: &[u8], res: &[u8]) -> Part
    ensures { result ≡ found_told h current.now state.now res.now f }
{
    let Some(Found { index, number }) = f else {
        return compared_with(h, Ok(()), NONE, current, current, state, b"", res);
    };
    let mut bytes = [0u8; ANSWER];
    put_pair(index as u64, number as u64, PLACE, &mut bytes, 0);
    compared_with(h, Ok(()), NONE, current, current, state, &bytes, res)
}

// Creature k of a list of n, and an empty slot past them.
#[tactic(auto, unfolding(crate::specs::Lists::enemy_or))]
fn enemy_or(list: &[u8], n: usize, k: usize) -> Enemy
    requires { n * ENEMY ≤ length list.now }
    ensures { result ≡ enemy_or n list.now k }
{
    if k < n {
        return enemy_of(list, k * ENEMY);
    }
    Enemy { x: 0, y: 0, dir: 0 }
}

// The creatures from number `from` on, as many as a game holds.
fn enemies_from(list: &[u8], n: usize, from: usize) -> [Enemy; mine_state::MAX_ENEMIES]
    requires { InList ENEMY list.now n from }
    ensures { result ≡ enemies_from n list.now from }
{
    array::from_fn(|i| enemy_or(list, n, from + i))
}

// What is found in a list of two parts, the second of which begins at `from`.
fn both(f: Option<Found>, from: usize, g: Option<Found>) -> Option<Found>
    requires { Fits f from g }
    ensures { result ≡ both_found f from g }
{
    let Some(there) = g else {
        return f;
    };
    let Some(here) = f else {
        return Some(Found {
            index: from + there.index,
            number: there.number,
        });
    };
    Some(Found {
        index: here.index,
        number: here.number + there.number,
    })
}

// The first of the list at (x, y) and how many are there.
fn mine_who(list: &[u8], x: usize, y: usize) -> Option<Found>
    ensures { result ≡ Mine.who_at (enemies_in list.now) x y }
{
    let n = list.len() / ENEMY;
    let mut found = None;
    for from in (0..n).step_by(mine_state::MAX_ENEMIES) {
        let part = enemies_from(list, n, from);
        found = both(found, from, mine::who_of(part, n - from, x, y));
    }
    found
}

#[tactic(auto, unfolding(crate::specs::Asked::asked, crate::specs::Asked::mine_asked))]
pub fn mine_asked(h: Head, args: &[u8], current: &[u8], state: &[u8], res: &[u8]) -> Part
    ensures { result ≡ mine_asked h args.now current.now state.now res.now }
{
    if args.len() < BEFORE_LIST {
        return Part::Unread;
    }
    let list = &args[BEFORE_LIST..];
    if list.len() % ENEMY != 0 {
        return Part::Unread;
    }
    let x = word(args, 0, PLACE) as usize;
    let y = word(args, PLACE, PLACE) as usize;
    told(h, mine_who(list, x, y), current, state, res)
}

#[tactic(auto, unfolding(crate::specs::Lists::mover_or))]
fn mover_or(list: &[u8], n: usize, k: usize) -> Mover
    requires { n * MOVER ≤ length list.now }
    ensures { result ≡ mover_or n list.now k }
{
    if k < n {
        return mover_of(list, k * MOVER);
    }
    Mover {
        x: 0,
        y: 0,
        vx: 0,
        vy: 0,
    }
}

fn movers_from(list: &[u8], n: usize, from: usize) -> [Mover; cutter_ground::MAX_ENEMIES]
    requires { InList MOVER list.now n from }
    ensures { result ≡ movers_from n list.now from }
{
    array::from_fn(|i| mover_or(list, n, from + i))
}

fn mover_who(list: &[u8], x: usize, y: usize) -> Option<Found>
    ensures { result ≡ Cutter.who_at (movers_in list.now) x y }
{
    let n = list.len() / MOVER;
    let mut found = None;
    for from in (0..n).step_by(cutter_ground::MAX_ENEMIES) {
        let part = movers_from(list, n, from);
        found = both(found, from, cutter::who_of(part, n - from, x, y));
    }
    found
}

#[tactic(auto, unfolding(crate::specs::Asked::asked, crate::specs::Asked::mover_asked))]
pub fn mover_asked(h: Head, args: &[u8], current: &[u8], state: &[u8], res: &[u8]) -> Part
    ensures { result ≡ mover_asked h args.now current.now state.now res.now }
{
    if args.len() < BEFORE_LIST {
        return Part::Unread;
    }
    let list = &args[BEFORE_LIST..];
    if list.len() % MOVER != 0 {
        return Part::Unread;
    }
    let x = word(args, 0, PLACE) as usize;
    let y = word(args, PLACE, PLACE) as usize;
    told(h, mover_who(list, x, y), current, state, res)
}
