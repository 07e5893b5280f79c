// Block Mine: the check of a state that a caller hands in: what document 01 calls bad gets its number.
#![tactic(auto)]

mod cause;

ghost use Rattle.std.specs.Prelude.{◌&&◌, ◌≡◌, ◌≤◌, ◌+◌, leb, length, take, drop};
ghost use Rattle.laws.specs.Lists.{all, any, count};
ghost use Rattle.mine_state.specs.State.{AREA, MAX_ENEMIES, empty_at, is_coin, is_code, stands_at};
ghost use Rattle.mine_state.specs.WellFormed.{creature_ok, apart, is_blank, refusal_of};

use cause::first_fault;
use mine_state::{AREA, EMPTY, EXIT, Enemy, H, MAX_ENEMIES, Mine, W, coin_count, stands_at};
use refusal::{Checked, Refusal};
use slots::all_blank;

// Every cell holds a code from EMPTY to EXIT: the largest does.
fn codes_ok(grid: &[u8; AREA]) -> bool
    requires { length grid.now ≡ AREA }
    ensures { result ≡ all is_code grid.now }
{
    let mut most: u8 = 0;
    for code in grid {
        most = most.max(*code);
    }
    most <= EXIT
}

// (x, y) is on the grid and its cell is empty.
fn empty_at(grid: &[u8; AREA], x: usize, y: usize) -> bool
    requires { length grid.now ≡ AREA }
    ensures { result ≡ empty_at grid.now x y }
{
    if W <= x {
        return false;
    }
    if H <= y {
        return false;
    }
    let i = y * W + x;
    grid[i] == EMPTY
}

fn creature_ok(grid: &[u8; AREA], e: Enemy) -> bool
    requires { length grid.now ≡ AREA }
    ensures { result ≡ creature_ok grid.now e }
{
    empty_at(grid, e.x, e.y) & (e.dir <= 3)
}

// A slot that holds zeros.
const BLANK: Enemy = Enemy { x: 0, y: 0, dir: 0 };

// Somebody stands where e does.
fn met(others: &[Enemy], e: Enemy) -> bool
    ensures { result ≡ any (stands_at e.x e.y) others.now }
{
    others.iter().any(|d| stands_at(*d, e.x, e.y))
}

// Each creature is right by itself and no later one stands on its cell; the slots past the count hold zeros.
fn creatures_ok(grid: &[u8; AREA], enemies: [Enemy; MAX_ENEMIES], n: usize) -> bool
    requires { length grid.now ≡ AREA }
    ensures { result ≡ (leb n MAX_ENEMIES && all (creature_ok grid.now) (take n enemies) && apart (take n enemies) && all is_blank (drop n enemies)) }
{
    if MAX_ENEMIES < n {
        return false;
    }
    let them = &enemies[..n];
    for (i, e) in them.iter().enumerate() {
        if !creature_ok(grid, *e) {
            return false;
        }
        if met(&them[i + 1..], *e) {
            return false;
        }
    }
    all_blank(&enemies[n..], BLANK)
}

// Coins in hand and on the map, and the coins needed.
fn numbers_ok(grid: &[u8; AREA], coins: u32, needed: u32) -> bool
    requires { length grid.now ≡ AREA }
    ensures { result ≡ (leb (coins + count is_coin grid.now) AREA && leb 1 needed && leb needed AREA) }
{
    let hand = coins as usize;
    let asked = needed as usize;
    if AREA < hand {
        return false;
    }
    let map = coin_count(grid) as usize;
    (hand + map <= AREA) & (1 <= asked) & (asked <= AREA)
}

// The refusal that a state gets, if any.
pub fn check(m: Mine) -> Checked
    ensures { result ≡ refusal_of m }
{
    // One copy of the cells, lent to each part of the check.
    let grid = m.grid;
    let enemies = m.enemies;
    if !codes_ok(&grid) {
        return Err(Refusal::Cells);
    }
    if !empty_at(&grid, m.px, m.py) {
        return Err(Refusal::Player);
    }
    if !creatures_ok(&grid, enemies, m.count) {
        return first_fault(&grid, enemies, m.count);
    }
    if !numbers_ok(&grid, m.coins, m.needed) {
        return Err(Refusal::Numbers);
    }
    Ok(())
}
