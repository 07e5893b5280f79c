// Which creature is wrong, and how: looked for once the plain pass has found that something is.
ghost use Rattle.std.specs.Prelude.{◌≡◌, ◌≤◌, length, take};
ghost use Rattle.refusal.specs.Faults.{first_fault, fault_in};
ghost use Rattle.mine_state.specs.State.{AREA, MAX_ENEMIES, on_grid};
ghost use Rattle.mine_state.specs.WellFormed.{is_blank, creature_fault};

use crate::{BLANK, empty_at, met};
use mine_state::{AREA, Enemy, H, MAX_ENEMIES, W};
use refusal::{Checked, Refusal};
use slots::first_spare;

fn on_grid(x: usize, y: usize) -> bool
    ensures { result ≡ on_grid x y }
{
    (x < W) & (y < H)
}

// What is wrong with e, the creature i.
fn creature_fault(grid: &[u8; AREA], enemies: [Enemy; MAX_ENEMIES], i: usize, e: Enemy) -> Checked
    requires { (length grid.now ≡ AREA) × (i ≤ MAX_ENEMIES) }
    ensures { result ≡ creature_fault grid.now enemies i e }
{
    if !on_grid(e.x, e.y) {
        return Err(Refusal::OffGrid(i));
    }
    if !empty_at(grid, e.x, e.y) {
        return Err(Refusal::WrongCell(i));
    }
    if 3 < e.dir {
        return Err(Refusal::Heading(i));
    }
    if met(&enemies[..i], e) {
        return Err(Refusal::SharedCell(i));
    }
    Ok(())
}

// The first of n creatures that is wrong.
fn first_wrong(grid: &[u8; AREA], enemies: [Enemy; MAX_ENEMIES], n: usize) -> Checked
    requires { (length grid.now ≡ AREA) × (n ≤ MAX_ENEMIES) }
    ensures { result ≡ first_fault (creature_fault grid.now enemies) 0 (take n enemies) }
{
    for i in 0..n {
        creature_fault(grid, enemies, i, enemies[i])?;
    }
    Ok(())
}

// 31 first, then by creature, 36 last.
pub fn first_fault(grid: &[u8; AREA], enemies: [Enemy; MAX_ENEMIES], n: usize) -> Checked
    requires { length grid.now ≡ AREA }
    ensures { result ≡ fault_in MAX_ENEMIES (creature_fault grid.now enemies) is_blank enemies n }
{
    if MAX_ENEMIES < n {
        return Err(Refusal::TooMany);
    }
    first_wrong(grid, enemies, n)?;
    first_spare(&enemies, n, BLANK)
}
