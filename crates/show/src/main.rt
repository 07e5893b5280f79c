// The pictures after two plays, as text: commands as `mines` reads them, then `|`, then commands
// as `cuts` reads them. Reads 4,096 bytes at most.
//
// stdin: oracle/cases/mines_play.txt's play, then a cut in its middle. stdout: what the oracle's
// `show_oracle mines` and `show_oracle cuts` print for the two parts, one after the other.
#![tactic(auto)]

use cutter_state::Cutter;
use lines::{BAR, cut_byte, cut_start, mine_byte};
use mine_state::Mine;

#[derive(Clone, Copy)]
struct Plays {
    mine: Mine,
    cut: Cutter,
    cutting: bool,
}

impl Plays {
    // One byte of either play.
    fn press(&mut self, b: u8) {
        if b == BAR {
            self.cutting = true;
        } else if self.cutting {
            self.cut = cut_byte(self.cut, b).game;
        } else {
            self.mine = mine_byte(self.mine, b).game;
        }
    }
}

// All of them.
fn play(bytes: &[u8]) -> Plays {
    let mut plays = Plays {
        mine: mine::load(),
        cut: cut_start(),
        cutting: false,
    };
    for b in bytes {
        plays.press(*b);
    }
    plays
}

fn main(rt: HostRuntime) {
    let mut input = io::buffer();
    let n = streams::read_full(&rt, &mut input);
    let plays = play(&input[..n]);
    let mut frame = [0u8; frame::FRAME_LEN];
    let _ = mine::render(plays.mine, &mut frame);
    if !blocks::put_frame(&rt, &frame) {
        return;
    }
    let _ = cutter::render(plays.cut, &mut frame);
    blocks::put_frame(&rt, &frame);
}
