// Block Mine's state as C holds it: each flag is a byte.
ghost use Rattle.std.specs.Prelude.{◌≡◌, map, length};
ghost use Rattle.laws.specs.Lists.{all};
ghost use Rattle.mine_state.specs.State.{AREA};
ghost use Rattle.host_state.specs.Flags.{is_flag, flag_of, byte_of};
ghost use Rattle.host_state.specs.Mine.{flags_of, game_of, host_of};

use crate::flags::{flag_of, is_flag};
use mine_state::{AREA, Enemy, MAX_ENEMIES, Mine};
use refusal::{Checked, Refusal};

#[repr(C)]
#[derive(Clone, Copy)]
pub struct HostMine {
    pub grid: [u8; AREA],
    pub falling: [u8; AREA],
    pub px: usize,
    pub py: usize,
    pub enemies: [Enemy; MAX_ENEMIES],
    pub count: usize,
    pub coins: u32,
    pub needed: u32,
    pub dead: u8,
    pub won: u8,
}

// Every mark is a flag.
fn marks_ok(marks: &[u8; AREA]) -> bool
    requires { length marks.now ≡ AREA }
    ensures { result ≡ all is_flag marks.now }
{
    let mut ok = true;
    for mark in marks {
        ok &= is_flag(*mark);
    }
    ok
}

// The marks of bytes.
fn marks_of(bytes: &[u8; AREA]) -> [bool; AREA]
    requires { length bytes.now ≡ AREA }
    ensures { result ≡ map flag_of bytes.now }
{
    let mut out: [bool; AREA] = [false; AREA];
    for (i, byte) in bytes.iter().enumerate() {
        out[i] = flag_of(*byte);
    }
    out
}

// The bytes of marks.
fn bytes_of(marks: &[bool; AREA]) -> [u8; AREA]
    requires { length marks.now ≡ AREA }
    ensures { result ≡ map byte_of marks.now }
{
    let mut out: [u8; AREA] = [0; AREA];
    for (i, mark) in marks.iter().enumerate() {
        out[i] = u8::from(*mark);
    }
    out
}

// What a byte gets that is no flag: Cells for a mark, Numbers for dead or won behind what the state gets.
#[inline(always)]
pub fn mine_flags(h: HostMine) -> Checked
    ensures { result ≡ flags_of h }
{
    let marks = h.falling;
    if !marks_ok(&marks) {
        return Err(Refusal::Cells);
    }
    if is_flag(h.dead) & is_flag(h.won) {
        return Ok(());
    }
    mine_check::check(mine_game(h)).and(Err(Refusal::Numbers))
}

// The game's state of the host's.
pub fn mine_game(h: HostMine) -> Mine
    ensures { result ≡ game_of h }
{
    let grid = h.grid;
    let marks = h.falling;
    let enemies = h.enemies;
    let falling = marks_of(&marks);
    Mine {
        grid,
        falling,
        px: h.px,
        py: h.py,
        enemies,
        count: h.count,
        coins: h.coins,
        needed: h.needed,
        dead: flag_of(h.dead),
        won: flag_of(h.won),
    }
}

// The host's state of the game's.
pub fn mine_host(m: Mine) -> HostMine
    ensures { result ≡ host_of m }
{
    let grid = m.grid;
    let marks = m.falling;
    let enemies = m.enemies;
    let falling = bytes_of(&marks);
    HostMine {
        grid,
        falling,
        px: m.px,
        py: m.py,
        enemies,
        count: m.count,
        coins: m.coins,
        needed: m.needed,
        dead: u8::from(m.dead),
        won: u8::from(m.won),
    }
}
