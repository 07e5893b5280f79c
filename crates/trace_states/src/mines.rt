// Block Mine's state: 850 bytes.
ghost use Rattle.std.specs.Prelude.{◌+◌, ◌≤◌, map, ◌≡◌, length};
ghost use Rattle.laws.specs.Lists.{bit};
ghost use Rattle.mine_state.specs.State.{AREA};
ghost use Rattle.trace_words.specs.Numbers.{flat};
ghost use Rattle.trace_words.specs.CodeLays.{Lays};
ghost use Rattle.trace_states.specs.Mines.{MINE, ENEMY, SLOTS, enemy_at, enemies_at, falling_at, mine_of, enemy_bytes, mine_bytes};

use mine_state::{AREA, Enemy, MAX_ENEMIES, Mine};
use std::array;
use trace_words::{MARK, PLACE, fill, put_cells, put_pair, put_word, word};

pub const MINE: usize = 850;

// A creature's bytes.
const ENEMY: usize = 17;

// Where its direction stands.
const DIR: usize = 16;

// Where the fields stand.
const FALLING: usize = 336;

const PX: usize = 672;

const PY: usize = 680;

const ENEMIES: usize = 688;

const COUNT: usize = 824;

const COINS: usize = 832;

const NEEDED: usize = 836;

const DEAD: usize = 840;

const WON: usize = 841;

const MARKS: usize = 842;

// The creature that stands from `at` on.
pub fn enemy_of(bytes: &[u8], at: usize) -> Enemy
    requires { at + ENEMY ≤ length bytes.now }
    ensures { result ≡ enemy_at at bytes.now }
{
    Enemy {
        x: word(bytes, at, PLACE) as usize,
        y: word(bytes, at + PLACE, PLACE) as usize,
        dir: bytes[at + DIR],
    }
}

// All slots.
fn enemies_of(bytes: &[u8], at: usize) -> [Enemy; MAX_ENEMIES]
    requires { at + SLOTS ≤ length bytes.now }
    ensures { result ≡ enemies_at at bytes.now }
{
    array::from_fn(|i| enemy_of(bytes, at + i * ENEMY))
}

// A byte that is not 0 is a set flag.
fn falling_of(bytes: &[u8], at: usize) -> [bool; AREA]
    requires { at + AREA ≤ length bytes.now }
    ensures { result ≡ falling_at at bytes.now }
{
    array::from_fn(|i| bytes[at + i] != 0)
}

// The state in its bytes.
pub fn mine_of(bytes: &[u8]) -> Mine
    requires { length bytes.now ≡ MINE }
    ensures { result ≡ mine_of bytes.now }
{
    let mut grid = [0u8; AREA];
    fill(bytes, 0, &mut grid);
    Mine {
        grid,
        falling: falling_of(bytes, FALLING),
        px: word(bytes, PX, PLACE) as usize,
        py: word(bytes, PY, PLACE) as usize,
        enemies: enemies_of(bytes, ENEMIES),
        count: word(bytes, COUNT, PLACE) as usize,
        coins: word(bytes, COINS, MARK) as u32,
        needed: word(bytes, NEEDED, MARK) as u32,
        dead: bytes[DEAD] != 0,
        won: bytes[WON] != 0,
    }
}

fn put_enemy(e: Enemy, out: &mut [u8], at: usize)
    requires { at + ENEMY ≤ length out.old }
    ensures { Lays (enemy_bytes e) ENEMY at out.old out.new }
{
    put_pair(e.x as u64, e.y as u64, PLACE, out, at);
    put_word(u64::from(e.dir), 1, out, at + DIR);
}

fn put_enemies(enemies: [Enemy; MAX_ENEMIES], out: &mut [u8], at: usize)
    requires { at + SLOTS ≤ length out.old }
    ensures { Lays (flat enemy_bytes enemies) SLOTS at out.old out.new }
{
    for (i, e) in enemies.iter().enumerate() {
        put_enemy(*e, out, at + i * ENEMY);
    }
}

fn put_falling(falling: [bool; AREA], out: &mut [u8], at: usize)
    requires { at + AREA ≤ length out.old }
    ensures { Lays (map bit falling) AREA at out.old out.new }
{
    for (i, falls) in falling.iter().enumerate() {
        out[at + i] = u8::from(*falls);
    }
}

// Puts a state and its marks into `out`.
pub fn put_mine(m: Mine, first: u32, second: u32, out: &mut [u8])
    requires { length out.old ≡ MINE }
    ensures { out.new ≡ mine_bytes m first second }
{
    put_cells(&m.grid, out, 0);
    put_falling(m.falling, out, FALLING);
    put_pair(m.px as u64, m.py as u64, PLACE, out, PX);
    put_enemies(m.enemies, out, ENEMIES);
    put_word(m.count as u64, PLACE, out, COUNT);
    put_pair(m.coins as u64, m.needed as u64, MARK, out, COINS);
    put_pair(m.dead as u64, m.won as u64, 1, out, DEAD);
    put_pair(first as u64, second as u64, MARK, out, MARKS);
}
