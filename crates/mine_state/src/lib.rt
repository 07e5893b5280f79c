// Block Mine: the state.
#![tactic(auto)]

ghost use Rattle.std.specs.Prelude.{◌≡◌, ◌<◌, ◌≤◌, length};
ghost use Rattle.laws.specs.Lists.{count};
ghost use Rattle.mine_state.specs.State.{AREA, code_in, is_coin, stands_at};
ghost use Rattle.mine_state.specs.CodeState.{CellOf};

use found::Stands;

// Level dimensions, in tiles.
pub const W: usize = 24;

pub const H: usize = 14;
// The cells of the grid; as a place, none of them.
pub const AREA: usize = W * H;

pub const MAX_ENEMIES: usize = 8;

// Terrain codes.
pub const EMPTY: u8 = 0;

pub const DIRT: u8 = 1;

pub const WALL: u8 = 2;

pub const BOULDER: u8 = 3;

pub const COIN: u8 = 4;

pub const EXIT: u8 = 5;

// A creature, with the direction it last travelled (0 up, 1 right, 2 down, 3 left).
#[repr(C)]
#[derive(Clone, Copy, PartialEq, Eq, Debug)]
pub struct Enemy {
    pub x: usize,
    pub y: usize,
    pub dir: u8,
}

#[repr(C)]
#[derive(Clone, Copy)]
pub struct Mine {
    pub grid: [u8; AREA],
    // Whether the object at a cell is mid-fall; only a falling object crushes.
    pub falling: [bool; AREA],
    pub px: usize,
    pub py: usize,
    pub enemies: [Enemy; MAX_ENEMIES],
    pub count: usize,
    pub coins: u32,
    pub needed: u32,
    pub dead: bool,
    pub won: bool,
}

// The code of the cell (x, y).
pub fn at(grid: &[u8; AREA], x: usize, y: usize) -> u8
    requires { CellOf grid.now x y }
    ensures { result ≡ code_in grid.now x y }
{
    let i = y * W + x;
    grid[i]
}

// The creature stands at (x, y).
pub fn stands_at(e: Enemy, x: usize, y: usize) -> bool
    ensures { result ≡ stands_at x y e }
{
    e.x == x && e.y == y
}

impl Stands for Enemy {
    ghost stands = { stands_at };

    fn stands_at(&self, x: usize, y: usize) -> bool {
        stands_at(*self, x, y)
    }
}

// The cells of half a grid, few enough to be counted in a byte.
const HALF: usize = AREA / 2;

// How many of half a grid's cells hold a coin, in a byte.
fn coins_in(half: &[u8]) -> u8
    requires { length half.now < 256 }
    ensures { result ≡ count is_coin half.now }
{
    let mut n: u8 = 0;
    for code in half {
        n += (*code == COIN) as u8;
    }
    n
}

// How many cells hold a coin. Each half of the grid is counted in a byte.
pub fn coin_count(grid: &[u8; AREA]) -> u16
    requires { length grid.now ≡ AREA }
    ensures { (result ≡ count is_coin grid.now) × (result ≤ AREA) }
{
    let (upper, lower) = grid.split_at(HALF);
    coins_in(upper) as u16 + coins_in(lower) as u16
}
