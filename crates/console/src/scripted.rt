// A script of bytes, one to a turn, with a clock of its own.
ghost use Rattle.std.specs.Prelude.{◌≤◌, length};

use console_turns::MOST_DRAWS;
use std::num::wrapping_add_u32;

// Cycles to a turn.
const STEP: u32 = 1_200_000;

const SHOW: u8 = b'=';

const BAR: u8 = b'|';

// Plays Block Mine up to the bar, and answers where the rest begins.
fn play_mine(rt: &(impl Print + Eprint), bytes: &[u8]) -> usize
    ensures { result ≤ length bytes.now }
{
    let mut time: u32 = 0;
    let mut p = console_turns::mine_start(time);
    let mut waits = console_keys::PLAIN;
    for (i, b) in bytes.iter().enumerate() {
        if *b == BAR {
            return i + 1;
        }
        if *b == SHOW {
            if !console_screens::show(rt, console_screens::mine_screen(p)) {
                break;
            }
        } else {
            time = wrapping_add_u32(time, STEP);
            let mut key = [*b];
            waits = console_keys::hear(waits, &mut key);
            p = console_turns::mine_turn(p, &key, time);
        }
    }
    bytes.len()
}

// Plays Block Cutter.
fn play_cutter(rt: &(impl Print + Eprint), bytes: &[u8], draws: [u8; MOST_DRAWS]) {
    let mut time: u32 = 0;
    let n = console_screens::within(console_turns::ROUND, &draws);
    let mut p = console_turns::cutter_start(&draws[..n], time);
    let mut waits = console_keys::PLAIN;
    for b in bytes {
        if *b == SHOW {
            if !console_screens::show(rt, console_screens::cutter_screen(p)) {
                return;
            }
        } else {
            time = wrapping_add_u32(time, STEP);
            let mut key = [*b];
            waits = console_keys::hear(waits, &mut key);
            let k = console_screens::within(console_turns::cutter_draws(p), &draws);
            p = console_turns::cutter_turn(p, &key, &draws[..k], time);
        }
    }
}

pub fn play_script(rt: &(impl Input + Print + Eprint), word: [u8; MOST_DRAWS]) {
    let mut draws = word;
    console_turns::to_draws(&mut draws);
    let mut input = io::large_buffer();
    let n = streams::read_full(rt, &mut input);
    let text = &input[..n];
    let k = play_mine(rt, text);
    play_cutter(rt, &text[k..], draws);
}
