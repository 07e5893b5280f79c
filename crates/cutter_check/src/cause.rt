// Which creature is wrong, and how: looked for once the plain pass has found that something is.
ghost use Rattle.std.specs.Prelude.{◌≡◌, ◌≤◌, length, take};
ghost use Rattle.refusal.specs.Faults.{first_fault, fault_in};
ghost use Rattle.cutter_ground.specs.Cells.{CN, on_grid};
ghost use Rattle.cutter_ground.specs.Movers.{MAX_ENEMIES};
ghost use Rattle.cutter_state.specs.WellFormed.{is_blank, creature_fault};
ghost use Rattle.cutter_check.specs.CodePasses.{Counted};

use crate::{holds, velocity_ok};
use cutter_ground::{BLANK, CB_BLACK, CH, CN, CW, MAX_ENEMIES, Mover};
use refusal::{Checked, Refusal};
use slots::first_spare;

fn on_grid(x: usize, y: usize) -> bool
    ensures { result ≡ on_grid x y }
{
    (x < CW) & (y < CH)
}

// What is wrong with e, the creature i.
fn mover_fault(grid: &[u8; CN], i: usize, e: Mover) -> Checked
    requires { length grid.now ≡ CN }
    ensures { result ≡ creature_fault grid.now i e }
{
    let x = e.x as usize;
    let y = e.y as usize;
    if !on_grid(x, y) {
        return Err(Refusal::OffGrid(i));
    }
    if !holds(grid, CB_BLACK, x, y) {
        return Err(Refusal::WrongCell(i));
    }
    if !velocity_ok(e) {
        return Err(Refusal::Heading(i));
    }
    Ok(())
}

// The first of `count` creatures that is wrong.
fn first_wrong(grid: &[u8; CN], enemies: [Mover; MAX_ENEMIES], count: usize) -> Checked
    requires { Counted grid.now count }
    ensures { result ≡ first_fault (creature_fault grid.now) 0 (take count enemies) }
{
    for i in 0..count {
        mover_fault(grid, i, enemies[i])?;
    }
    Ok(())
}

// 31 first, then by creature, 36 last.
pub fn first_fault(grid: &[u8; CN], enemies: [Mover; MAX_ENEMIES], count: usize) -> Checked
    requires { length grid.now ≡ CN }
    ensures { result ≡ fault_in MAX_ENEMIES (creature_fault grid.now) is_blank enemies count }
{
    if MAX_ENEMIES < count {
        return Err(Refusal::TooMany);
    }
    first_wrong(grid, enemies, count)?;
    first_spare(&enemies, count, BLANK)
}
