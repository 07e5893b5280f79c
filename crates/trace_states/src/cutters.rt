// Block Cutter's state: 2,157 bytes.
ghost use Rattle.std.specs.Prelude.{◌+◌, ◌≤◌, ◌≡◌, length};
ghost use Rattle.cutter_ground.specs.Cells.{CN};
ghost use Rattle.trace_words.specs.Numbers.{flat};
ghost use Rattle.trace_words.specs.CodeLays.{Lays};
ghost use Rattle.trace_states.specs.Cutters.{CUTTER, MOVER, SLOTS, PLAYER, mover_at, movers_at, cutter_of, mover_bytes, player_bytes, cutter_bytes};

use cutter_ground::{CN, MAX_ENEMIES, Mover};
use cutter_state::Cutter;
use std::array;
use trace_words::{MARK, PLACE, byte_of, fill, put_cells, put_pair, put_word, signed_of, word};

pub const CUTTER: usize = 2157;

// A creature's bytes.
const MOVER: usize = 4;

// Where the fields stand.
const PX: usize = 2048;

const PY: usize = 2056;

const DX: usize = 2064;

const DY: usize = 2065;

const TRAILING: usize = 2066;

const ENEMIES: usize = 2067;

const COUNT: usize = 2131;

const LEVEL: usize = 2139;

const LIVES: usize = 2143;

const DEAD: usize = 2147;

const WON: usize = 2148;

const MARKS: usize = 2149;

// The creature that stands from `at` on.
pub fn mover_of(bytes: &[u8], at: usize) -> Mover
    requires { at + MOVER ≤ length bytes.now }
    ensures { result ≡ mover_at at bytes.now }
{
    Mover {
        x: bytes[at],
        y: bytes[at + 1],
        vx: signed_of(bytes[at + 2]),
        vy: signed_of(bytes[at + 3]),
    }
}

// All slots.
fn movers_of(bytes: &[u8], at: usize) -> [Mover; MAX_ENEMIES]
    requires { at + SLOTS ≤ length bytes.now }
    ensures { result ≡ movers_at at bytes.now }
{
    array::from_fn(|i| mover_of(bytes, at + i * MOVER))
}

// The state in its bytes.
pub fn cutter_of(bytes: &[u8]) -> Cutter
    requires { length bytes.now ≡ CUTTER }
    ensures { result ≡ cutter_of bytes.now }
{
    let mut grid = [0u8; CN];
    fill(bytes, 0, &mut grid);
    Cutter {
        grid,
        px: word(bytes, PX, PLACE) as usize,
        py: word(bytes, PY, PLACE) as usize,
        dx: signed_of(bytes[DX]),
        dy: signed_of(bytes[DY]),
        trailing: bytes[TRAILING] != 0,
        enemies: movers_of(bytes, ENEMIES),
        count: word(bytes, COUNT, PLACE) as usize,
        level: word(bytes, LEVEL, MARK) as u32,
        lives: word(bytes, LIVES, MARK) as u32,
        dead: bytes[DEAD] != 0,
        won_level: bytes[WON] != 0,
    }
}

fn put_mover(e: Mover, out: &mut [u8], at: usize)
    requires { at + MOVER ≤ length out.old }
    ensures { Lays (mover_bytes e) MOVER at out.old out.new }
{
    put_pair(u64::from(e.x), u64::from(e.y), 1, out, at);
    put_pair(
        u64::from(byte_of(e.vx)),
        u64::from(byte_of(e.vy)),
        1,
        out,
        at + 2,
    );
}

fn put_movers(enemies: [Mover; MAX_ENEMIES], out: &mut [u8], at: usize)
    requires { at + SLOTS ≤ length out.old }
    ensures { Lays (flat mover_bytes enemies) SLOTS at out.old out.new }
{
    for (i, e) in enemies.iter().enumerate() {
        put_mover(*e, out, at + i * MOVER);
    }
}

fn put_player(c: Cutter, out: &mut [u8], at: usize)
    requires { at + PLAYER ≤ length out.old }
    ensures { Lays (player_bytes c) PLAYER at out.old out.new }
{
    put_pair(c.px as u64, c.py as u64, PLACE, out, at);
    put_pair(
        u64::from(byte_of(c.dx)),
        u64::from(byte_of(c.dy)),
        1,
        out,
        at + 16,
    );
    put_word(c.trailing as u64, 1, out, at + 18);
}

// Puts a state and its marks into `out`.
pub fn put_cutter(c: Cutter, first: u32, second: u32, out: &mut [u8])
    requires { length out.old ≡ CUTTER }
    ensures { out.new ≡ cutter_bytes c first second }
{
    put_cells(&c.grid, out, 0);
    put_player(c, out, PX);
    put_movers(c.enemies, out, ENEMIES);
    put_word(c.count as u64, PLACE, out, COUNT);
    put_pair(c.level as u64, c.lives as u64, MARK, out, LEVEL);
    put_pair(c.dead as u64, c.won_level as u64, 1, out, DEAD);
    put_pair(first as u64, second as u64, MARK, out, MARKS);
}
