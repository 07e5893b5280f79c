// Both games in a terminal: `console mine`, `console cutter`; a word behind it is used as random bytes.
// `console script WORD` plays a script of bytes, one to a turn, with a clock of its own: Block Mine
// up to `|`, then Block Cutter; `=` shows the screen.
//
// stdin, args: a play of each. stdout: what the oracle's `console_oracle WORD` prints for it.
#![tactic(auto)]

mod live;
mod scripted;

use console_turns::MOST_DRAWS;
use std::env::{Env, FillError};
use std::io::IsTerminal;

// Room for a name, and for a word.
const WORD: usize = MOST_DRAWS;

fn main(rt: HostRuntime) {
    let mut word = [0u8; WORD];
    let fixed = !matches!(rt.arg(2, &mut word), Err(FillError::NotPresent));
    let mut name = [0u8; WORD];
    let k = rt.arg(1, &mut name).unwrap_or(0);
    match &name[..k] {
        b"mine" => crate::live::play_mine(&rt, rt.stdin().is_terminal()),
        b"cutter" => crate::live::play_cutter(&rt, rt.stdin().is_terminal(), fixed, word),
        b"script" => crate::scripted::play_script(&rt, word),
        _ => {
            let _ = eprintln!(rt; "usage: console mine | cutter | script WORD");
        }
    }
}
