// What is shown: a head line above the frame.
ghost use Rattle.io.specs.Counts.{IsPrefixLen};
ghost use Rattle.console_screens.specs.Screens.{MineShown, CutterShown};

use crate::heads::HEAD;
use console_turns::{CutterPlay, MinePlay};
use frame::FRAME_LEN;

// A head line, its bytes up to `end`, and a frame.
#[derive(Clone, Copy, PartialEq)]
pub struct Screen {
    pub head: [u8; HEAD],
    pub end: usize,
    pub frame: [u8; FRAME_LEN],
}

pub fn mine_screen(p: MinePlay) -> Screen
    ensures { MineShown p result }
{
    let m = p.game;
    let mut head = [0u8; HEAD];
    let end = crate::heads::mine_head(m.coins, m.needed, p.stands, &mut head);
    let mut frame = [0u8; FRAME_LEN];
    let _ = mine::render(m, &mut frame);
    Screen { head, end, frame }
}

pub fn cutter_screen(p: CutterPlay) -> Screen
    ensures { CutterShown p result }
{
    let c = p.game;
    let ground = cutter::ground_report(c);
    let mut head = [0u8; HEAD];
    let end = crate::heads::cutter_head(c.level, c.lives, ground.share, p.stands, &mut head);
    let mut frame = [0u8; FRAME_LEN];
    let _ = cutter::render(c, &mut frame);
    Screen { head, end, frame }
}

// n, or all of a buffer's bytes where n is more.
pub fn within(n: usize, buf: &[u8]) -> usize
    ensures { IsPrefixLen result buf.now }
{
    n.min(buf.len())
}

// The head line and the frame, as they stand; false where that failed.
pub fn show(rt: &(impl Print + Eprint), s: Screen) -> bool {
    let head = s.head;
    let end = within(s.end, &head);
    let frame = s.frame;
    streams::write(rt, &head[..end]) && streams::write(rt, b"\n") && blocks::put_frame(rt, &frame)
}

// Shows a screen in place of another, where they differ; false where that failed.
pub fn refresh(rt: &(impl Print + Eprint), s: Screen, shown: Screen) -> bool {
    // The cursor to the top left, and the old head line away.
    s == shown || (streams::write(rt, b"\x1b[H\x1b[K") && show(rt, s))
}

// A cleared terminal, and the first screen; false where that failed.
pub fn begin(rt: &(impl Print + Eprint), s: Screen) -> bool {
    streams::write(rt, b"\x1b[2J\x1b[H") && show(rt, s)
}
