// A game by the system's clock, with keys from the terminal.
use console_screens::within;
use console_turns::{CutterPlay, MOST_DRAWS, MinePlay, QUIT};
use std::io::Read;
use std::random::RandomSource;
use std::time::Clock;

// Turns at most: more than five hours.
const TURNS: u32 = 4_000_000;

// Nanoseconds between turns, a sixth of the shortest interval.
const NAP: i64 = 5_000_000;

// Bytes of a turn at most.
const KEYS: usize = 64;

// The bytes that are there. Where there are none, a terminal may have some later; other input has
// ended, which gives None.
fn listen(rt: &(impl Input + Eprint), terminal: bool, bytes: &mut [u8]) -> Option<usize> {
    let mut reader = rt.reader();
    let got = reader.read(bytes);
    if streams::read_failed(rt, &got) {
        return None;
    }
    let count = got.unwrap_or(0);
    if count == 0 && !terminal {
        return None;
    }
    Some(count)
}

// What a game at the terminal carries from turn to turn: its play, and what the bytes before left open.
#[derive(Clone, Copy)]
struct Turned<P> {
    play: P,
    waits: u8,
}

fn mine_step(
    rt: &(impl Input + Eprint + Clock),
    m: Turned<MinePlay>,
    terminal: bool,
) -> Option<Turned<MinePlay>> {
    let mut bytes = [0u8; KEYS];
    let count = listen(rt, terminal, &mut bytes)?;
    let n = within(count, &bytes);
    let pressed = &mut bytes[..n];
    let waits = console_keys::hear(m.waits, pressed);
    let play = console_turns::mine_turn(m.play, pressed, console_clock::reading(rt));
    Some(Turned { play, waits })
}

fn tell_spent(rt: &(impl Print + Eprint)) {
    streams::write(rt, b"no turn is left\n");
}

pub fn play_mine(rt: &(impl Input + Print + Eprint + Clock), terminal: bool) {
    let mut m = Turned {
        play: console_turns::mine_start(console_clock::reading(rt)),
        waits: console_keys::PLAIN,
    };
    let mut shown = console_screens::mine_screen(m.play);
    if !console_screens::begin(rt, shown) {
        return;
    }
    for _ in 0..TURNS {
        let Some(next) = mine_step(rt, m, terminal) else {
            return;
        };
        m = next;
        let screen = console_screens::mine_screen(m.play);
        if !console_screens::refresh(rt, screen, shown) || m.play.stands == QUIT {
            return;
        }
        shown = screen;
        console_clock::nap(rt, NAP);
    }
    tell_spent(rt);
}

// As many draws as a call can take: of the word, or of the system's random bytes.
fn drawn(rt: &impl RandomSource, fixed: bool, word: [u8; MOST_DRAWS]) -> [u8; MOST_DRAWS] {
    let mut bytes = word;
    if !fixed {
        let _ = rt.fill_bytes(&mut bytes);
    }
    console_turns::to_draws(&mut bytes);
    bytes
}

fn cutter_begin(rt: &impl Clock, draws: [u8; MOST_DRAWS]) -> CutterPlay {
    let n = within(console_turns::ROUND, &draws);
    console_turns::cutter_start(&draws[..n], console_clock::reading(rt))
}

fn cutter_step(
    rt: &(impl Input + Eprint + Clock),
    c: Turned<CutterPlay>,
    terminal: bool,
    draws: [u8; MOST_DRAWS],
) -> Option<Turned<CutterPlay>> {
    let mut bytes = [0u8; KEYS];
    let count = listen(rt, terminal, &mut bytes)?;
    let n = within(count, &bytes);
    let pressed = &mut bytes[..n];
    let waits = console_keys::hear(c.waits, pressed);
    let k = within(console_turns::cutter_draws(c.play), &draws);
    let play = console_turns::cutter_turn(c.play, pressed, &draws[..k], console_clock::reading(rt));
    Some(Turned { play, waits })
}

// The draws of the next turn, made anew where it takes any.
fn next_draws(
    rt: &impl RandomSource,
    p: CutterPlay,
    fixed: bool,
    word: [u8; MOST_DRAWS],
) -> [u8; MOST_DRAWS] {
    if console_turns::cutter_draws(p) == 0 {
        return word;
    }
    drawn(rt, fixed, word)
}

pub fn play_cutter(
    rt: &(impl Input + Print + Eprint + Clock + RandomSource),
    terminal: bool,
    fixed: bool,
    word: [u8; MOST_DRAWS],
) {
    let mut c = Turned {
        play: cutter_begin(rt, drawn(rt, fixed, word)),
        waits: console_keys::PLAIN,
    };
    let mut shown = console_screens::cutter_screen(c.play);
    if !console_screens::begin(rt, shown) {
        return;
    }
    for _ in 0..TURNS {
        let draws = next_draws(rt, c.play, fixed, word);
        let Some(next) = cutter_step(rt, c, terminal, draws) else {
            return;
        };
        c = next;
        let screen = console_screens::cutter_screen(c.play);
        if !console_screens::refresh(rt, screen, shown) || c.play.stands == QUIT {
            return;
        }
        shown = screen;
        console_clock::nap(rt, NAP);
    }
    tell_spent(rt);
}
