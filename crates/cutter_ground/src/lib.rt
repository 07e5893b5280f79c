// The ground of Block Cutter: 64 by 32 cells, numbered row by row, and the creatures that move on it.
#![tactic(auto)]

ghost use Rattle.std.specs.Prelude.{◌≡◌, ◌+◌, ◌*◌, length};
ghost use Rattle.laws.specs.Lists.{tally};
ghost use Rattle.cutter_ground.specs.Cells.{CN, cell_at, left_of, right_of, up_of, down_of, black_at, on_border, black_count};
ghost use Rattle.cutter_ground.specs.CodeVisit.{Room, Visited, Around};
ghost use Rattle.cutter_ground.specs.Movers.{place_of, stands_at};

use found::Stands;

pub const CW: usize = 64;

pub const CH: usize = 32;

pub const CN: usize = CW * CH;

// The cells inside the ring, and those of the ring.
pub const INNER: usize = (CW - 2) * (CH - 2);

pub const RING: usize = CN - INNER;

pub const CB_BLACK: u8 = 0;

pub const CB_FILLED: u8 = 1;

pub const CB_TRAIL: u8 = 2;

// What marks a cell that a search has reached.
pub const SEEN: u8 = 1;

// At most so many creatures.
pub const MAX_ENEMIES: usize = 16;

#[repr(C)]
#[derive(Clone, Copy, PartialEq, Eq, Debug)]
pub struct Mover {
    pub x: u8,
    pub y: u8,
    pub vx: i8,
    pub vy: i8,
}

// What a slot without a creature holds.
pub const BLANK: Mover = Mover {
    x: 0,
    y: 0,
    vx: 0,
    vy: 0,
};

// The cell of a creature.
pub fn cell_of(e: Mover) -> usize
    ensures { result ≡ place_of e }
{
    (e.y as usize) * CW + (e.x as usize)
}

// Two bytes as one number.
fn both_of(x: u8, y: u8) -> u32
    ensures { result ≡ x + 256 * y }
{
    x as u32 + 256 * (y as u32)
}

// The creature stands at (x, y). One comparison where both are bytes, which a scan makes for many creatures.
pub fn stands_at(e: Mover, x: usize, y: usize) -> bool
    ensures { result ≡ stands_at x y e }
{
    if 255 < x || 255 < y {
        return false;
    }
    both_of(e.x, e.y) == both_of(x as u8, y as u8)
}

impl Stands for Mover {
    ghost stands = { stands_at };

    fn stands_at(&self, x: usize, y: usize) -> bool {
        stands_at(*self, x, y)
    }
}

// What a cell holds; off the grid reads as claimed.
pub fn cell(grid: &[u8; CN], at: usize) -> u8
    requires { length grid.now ≡ CN }
    ensures { result ≡ cell_at grid.now at }
{
    if at < CN { grid[at] } else { CB_FILLED }
}

// The neighbours of a cell, or CN where there is none.
pub fn left_of(at: usize) -> usize
    ensures { result ≡ left_of at }
{
    if 0 < at % CW { at - 1 } else { CN }
}

pub fn right_of(at: usize) -> usize
    ensures { result ≡ right_of at }
{
    if at % CW < CW - 1 { at + 1 } else { CN }
}

pub fn up_of(at: usize) -> usize
    ensures { result ≡ up_of at }
{
    if at < CW { CN } else { at - CW }
}

pub fn down_of(at: usize) -> usize
    ensures { result ≡ down_of at }
{
    if at < CN - CW { at + CW } else { CN }
}

pub fn black_at(grid: &[u8; CN], at: usize) -> bool
    requires { length grid.now ≡ CN }
    ensures { result ≡ black_at grid.now at }
{
    cell(grid, at) == CB_BLACK
}

// Whether one of the eight neighbours is black.
//
// Eight, not four, so that corner cells count and the border around a region is one path of orthogonal steps.
pub fn on_border(grid: &[u8; CN], at: usize) -> bool
    requires { length grid.now ≡ CN }
    ensures { result ≡ on_border grid.now at }
{
    let up = up_of(at);
    let down = down_of(at);
    let neighbours = [
        left_of(at),
        right_of(at),
        up,
        down,
        left_of(up),
        right_of(up),
        left_of(down),
        right_of(down),
    ];
    neighbours.iter().any(|c| black_at(grid, *c))
}

// How many cells hold a code. Counted in 16 bits: a chain's `count` in 64 takes ten times as long.
pub fn count_of(grid: &[u8; CN], kind: u8) -> u16
    requires { length grid.now ≡ CN }
    ensures { result ≡ tally kind grid.now }
{
    let mut n: u16 = 0;
    for code in grid {
        if *code == kind {
            n += 1;
        }
    }
    n
}

pub fn black_count(grid: &[u8; CN]) -> u16
    requires { length grid.now ≡ CN }
    ensures { result ≡ black_count grid.now }
{
    count_of(grid, CB_BLACK)
}

// Marks the cell at and puts it on the queue, where it holds the code kind and has no mark; the queue's new end.
fn visit(
    grid: &[u8; CN],
    seen: &mut [u8; CN],
    queue: &mut [u16; CN],
    tail: usize,
    at: usize,
    kind: u8,
) -> usize
    requires { Room grid.now seen.old queue.old tail kind }
    ensures { Visited grid.now seen.old queue.old tail at kind seen.new queue.new result }
{
    if at < CN && grid[at] == kind && seen[at] == 0 {
        seen[at] = SEEN;
        queue[tail] = at as u16;
        return tail + 1;
    }
    tail
}

// Visits the four neighbours of a cell, left, right, up, down; the queue's new end.
pub fn around(
    grid: &[u8; CN],
    seen: &mut [u8; CN],
    queue: &mut [u16; CN],
    tail: usize,
    at: usize,
    kind: u8,
) -> usize
    requires { Room grid.now seen.old queue.old tail kind }
    ensures { Around grid.now seen.old queue.old tail at kind seen.new queue.new result }
{
    let tail = visit(grid, seen, queue, tail, left_of(at), kind);
    let tail = visit(grid, seen, queue, tail, right_of(at), kind);
    let tail = visit(grid, seen, queue, tail, up_of(at), kind);
    visit(grid, seen, queue, tail, down_of(at), kind)
}
