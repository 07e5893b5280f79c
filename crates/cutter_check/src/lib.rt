// Block Cutter: the check of a state that a caller hands in: whole passes over the cells, which are lent and never copied.
#![tactic(auto)]

mod cause;

ghost use Rattle.std.specs.Prelude.{◌&&◌, ◌≡◌, ◌≤◌, leb, length, take, drop};
ghost use Rattle.laws.specs.Lists.{all};
ghost use Rattle.cutter_ground.specs.Cells.{CN};
ghost use Rattle.cutter_state.specs.State.{holds_at};
ghost use Rattle.cutter_state.specs.WellFormed.{rows_filled, columns_filled, cells_ok, footing, direction_ok, is_unit, mover_ok, is_blank, numbers_ok, refusal_of};
ghost use Rattle.cutter_check.specs.CodePasses.{largest_of};
ghost use Rattle.cutter_ground.specs.Movers.{MAX_ENEMIES};

use cause::first_fault;
use cutter_ground::{BLANK, CB_BLACK, CB_FILLED, CB_TRAIL, CH, CN, CW, MAX_ENEMIES, Mover};
use cutter_state::{Cutter, MAX_LEVEL, MAX_LIVES};
use refusal::{Checked, Refusal};
use slots::all_blank;

// The largest code of the grid tells both whether all are codes and whether one is line.
fn largest(grid: &[u8; CN]) -> u8
    requires { length grid.now ≡ CN }
    ensures { result ≡ largest_of 0 grid.now }
{
    let mut most: u8 = 0;
    for code in grid {
        most = most.max(*code);
    }
    most
}

fn rows_filled(grid: &[u8; CN]) -> bool
    requires { length grid.now ≡ CN }
    ensures { result ≡ rows_filled grid.now }
{
    let mut ok = true;
    for x in 0..CW {
        ok = (grid[x] == CB_FILLED) & (grid[(CH - 1) * CW + x] == CB_FILLED) & ok;
    }
    ok
}

fn columns_filled(grid: &[u8; CN]) -> bool
    requires { length grid.now ≡ CN }
    ensures { result ≡ columns_filled grid.now }
{
    let mut ok = true;
    for y in 0..CH {
        ok = (grid[y * CW] == CB_FILLED) & (grid[y * CW + (CW - 1)] == CB_FILLED) & ok;
    }
    ok
}

fn cells_ok(grid: &[u8; CN], trailing: bool) -> bool
    requires { length grid.now ≡ CN }
    ensures { result ≡ cells_ok grid.now trailing }
{
    let most = largest(grid);
    if CB_TRAIL < most {
        return false;
    }
    rows_filled(grid) & columns_filled(grid) & ((most == CB_TRAIL) == trailing)
}

// (x, y) is on the grid and its cell holds the code.
fn holds(grid: &[u8; CN], code: u8, x: usize, y: usize) -> bool
    requires { length grid.now ≡ CN }
    ensures { result ≡ holds_at grid.now code x y }
{
    if CW <= x {
        return false;
    }
    if CH <= y {
        return false;
    }
    grid[y * CW + x] == code
}

fn is_unit(v: i8) -> bool
    ensures { result ≡ is_unit v }
{
    (v == 1) | (v == -1)
}

fn direction_ok(dx: i8, dy: i8) -> bool
    ensures { result ≡ direction_ok dx dy }
{
    if dx == 0 {
        return (dy == 0) | is_unit(dy);
    }
    is_unit(dx) & (dy == 0)
}

// The code of the cell that the player stands on.
fn footing_code(trailing: bool) -> u8
    ensures { result ≡ footing trailing }
{
    if trailing { CB_TRAIL } else { CB_FILLED }
}

fn player_ok(grid: &[u8; CN], trailing: bool, px: usize, py: usize, dx: i8, dy: i8) -> bool
    requires { length grid.now ≡ CN }
    ensures { result ≡ (holds_at grid.now (footing trailing) px py && direction_ok dx dy) }
{
    let code = footing_code(trailing);
    holds(grid, code, px, py) & direction_ok(dx, dy)
}

fn velocity_ok(e: Mover) -> bool
    ensures { result ≡ (is_unit e.vx && is_unit e.vy) }
{
    is_unit(e.vx) & is_unit(e.vy)
}

fn mover_ok(grid: &[u8; CN], e: Mover) -> bool
    requires { length grid.now ≡ CN }
    ensures { result ≡ mover_ok grid.now e }
{
    let x = e.x as usize;
    let y = e.y as usize;
    holds(grid, CB_BLACK, x, y) & velocity_ok(e)
}

fn movers_ok(grid: &[u8; CN], movers: &[Mover]) -> bool
    requires { length grid.now ≡ CN }
    ensures { result ≡ all (mover_ok grid.now) movers.now }
{
    movers.iter().all(|e| mover_ok(grid, *e))
}

fn creatures_ok(grid: &[u8; CN], enemies: [Mover; MAX_ENEMIES], count: usize) -> bool
    requires { length grid.now ≡ CN }
    ensures { result ≡ (leb count MAX_ENEMIES && all (mover_ok grid.now) (take count enemies) && all is_blank (drop count enemies)) }
{
    if MAX_ENEMIES < count {
        return false;
    }
    movers_ok(grid, &enemies[..count]) & all_blank(&enemies[count..], BLANK)
}

fn numbers_ok(c: Cutter) -> bool
    ensures { result ≡ numbers_ok c }
{
    (c.lives <= MAX_LIVES) & (1 <= c.level) & (c.level <= MAX_LEVEL)
}

// The refusal that a state gets, if any.
pub fn check(c: Cutter) -> Checked
    ensures { result ≡ refusal_of c }
{
    // One copy of the cells, lent to each part of the check.
    let grid = c.grid;
    let enemies = c.enemies;
    if !cells_ok(&grid, c.trailing) {
        return Err(Refusal::Cells);
    }
    if !player_ok(&grid, c.trailing, c.px, c.py, c.dx, c.dy) {
        return Err(Refusal::Player);
    }
    if !creatures_ok(&grid, enemies, c.count) {
        return first_fault(&grid, enemies, c.count);
    }
    if !numbers_ok(c) {
        return Err(Refusal::Numbers);
    }
    Ok(())
}
