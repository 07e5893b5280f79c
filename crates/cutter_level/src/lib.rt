// Block Cutter: a fresh level, and the draws that it takes.
#![tactic(auto)]

ghost use Rattle.std.specs.Prelude.{true, ◌≡◌, ◌+◌, ◌*◌, ◌<◌, ◌≤◌, length};
ghost use Rattle.laws.specs.Lists.{across};
ghost use Rattle.cutter_ground.specs.Cells.{CN, CW, CH};
ghost use Rattle.cutter_rules.specs.Level.{DRAWS_EACH, fresh_grid, creatures_of, draw_at, in_range, draws_ok, velocity, drawn_mover, drawn_enemies, at_start, fresh_level};
ghost use Rattle.cutter_level.specs.CodeDraws.{FourAt, DrawsAt, DrawsFor};
ghost use Rattle.cutter_level.specs.CodeRing.{claim_column};
ghost use Rattle.cutter_ground.specs.Movers.{MAX_ENEMIES};

use cutter_ground::{BLANK, CB_BLACK, CB_FILLED, CH, CN, CW, MAX_ENEMIES, Mover};
use cutter_state::Cutter;

// The draws of one creature: place across, place down, velocity across, velocity down.
pub const DRAWS_EACH: usize = 4;

fn claim_columns(grid: &mut [u8; CN])
    requires { length grid.old ≡ CN }
    ensures { grid.new ≡ across claim_column CH 0 grid.old }
{
    for y in 0..CH {
        grid[y * CW] = CB_FILLED;
        grid[y * CW + CW - 1] = CB_FILLED;
    }
}

fn fresh_grid() -> [u8; CN]
    ensures { result ≡ fresh_grid }
{
    let mut grid = [CB_BLACK; CN];
    grid[..CW].fill(CB_FILLED);
    grid[CN - CW..].fill(CB_FILLED);
    claim_columns(&mut grid);
    grid
}

// How many creatures a level starts with.
pub fn creatures_of(level: u32) -> usize
    ensures { result ≡ creatures_of level }
{
    MAX_ENEMIES.min(level as usize)
}

// The draw `k` of the creature `i`.
fn draw_at(draws: &[u8], i: usize, k: usize) -> u8
    requires { DRAWS_EACH * i + k < length draws.now }
    ensures { result ≡ draw_at draws.now i k }
{
    draws[DRAWS_EACH * i + k]
}

// The draws of the creature `i` are in range.
#[tactic(auto, unfolding(cutter_rules::specs::Level::in_range))]
fn in_range(draws: &[u8], i: usize) -> bool
    requires { FourAt draws.now i }
    ensures { result ≡ in_range draws.now i }
{
    let x = draw_at(draws, i, 0) as usize;
    let y = draw_at(draws, i, 1) as usize;
    let vx = draw_at(draws, i, 2);
    let vy = draw_at(draws, i, 3);
    x < CW - 2 && y < CH - 2 && vx < 2 && vy < 2
}

// The draws of `n` creatures: the right number of them, each in range.
pub fn draws_ok(draws: &[u8], n: usize) -> bool
    requires { n ≤ MAX_ENEMIES }
    ensures { result ≡ draws_ok draws.now n }
{
    draws.len() == DRAWS_EACH * n && (0..n).all(|i| in_range(draws, i))
}

fn velocity_of(draw: u8) -> i8
    ensures { result ≡ velocity draw }
{
    if draw == 0 { -1 } else { 1 }
}

fn drawn_mover(draws: &[u8], i: usize) -> Mover
    requires { DrawsAt draws.now i }
    ensures { result ≡ drawn_mover draws.now i }
{
    Mover {
        x: 1 + draw_at(draws, i, 0),
        y: 1 + draw_at(draws, i, 1),
        vx: velocity_of(draw_at(draws, i, 2)),
        vy: velocity_of(draw_at(draws, i, 3)),
    }
}

fn drawn_enemies(draws: &[u8], n: usize) -> [Mover; MAX_ENEMIES]
    requires { DrawsFor draws.now n }
    ensures { result ≡ drawn_enemies draws.now n }
{
    let mut out = [BLANK; MAX_ENEMIES];
    for i in 0..n {
        out[i] = drawn_mover(draws, i);
    }
    out
}

// The player at (32, 0), without a direction, not trailing.
#[tactic(auto, unfolding(cutter_rules::specs::Level::at_start))]
pub fn at_start(c: Cutter) -> Cutter
    ensures { result ≡ at_start c }
{
    Cutter {
        px: CW / 2,
        py: 0,
        dx: 0,
        dy: 0,
        trailing: false,
        ..c
    }
}

// A fresh level; what the state says of level, lives, dead and won stays.
#[tactic(auto, unfolding(cutter_rules::specs::Level::at_start, cutter_rules::specs::Level::fresh_level))]
pub fn new_level(c: Cutter, draws: &[u8]) -> Cutter
    requires { draws_ok draws.now (creatures_of c.level) ≡ true }
    ensures { result ≡ fresh_level c draws.now }
{
    let count = creatures_of(c.level);
    Cutter {
        grid: fresh_grid(),
        enemies: drawn_enemies(draws, count),
        count,
        ..at_start(c)
    }
}
