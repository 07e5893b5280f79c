// One gravity tick.
//
// The grid and the marks are lent to what happens at a cell. Where the creatures and the player stand
// is told by their places, numbers that are lent too; what a fall does beside moving comes back as a `Fell`.
#![tactic(auto)]

mod cells;

ghost use Rattle.std.specs.Prelude.{◌≡◌, ◌<◌, get_or, set};
ghost use Rattle.mine_state.specs.State.{MAX_ENEMIES};
ghost use Rattle.mine_state.specs.WellFormed.{WellFormed};
ghost use Rattle.mine_rules.specs.Gravity.{gravity_of};
ghost use Rattle.mine_fall.specs.CodePlaces.{Falling, Dropped};

use crate::cells::{Fell, cell_fall, quiet};
use mine_apart::{NOWHERE, Parts, enemies_of, parts_of};
use mine_state::{AREA, H, MAX_ENEMIES, Mine, W};

// What a tick changes beside the lent arrays.
#[repr(C)]
#[derive(Clone, Copy)]
pub struct Fallen {
    pub count: usize,
    pub coins: u32,
    pub dead: bool,
}

// The last slot's number goes to the slot of the one that goes, and leaves nobody's there.
fn leave<T: Copy>(a: &mut [T; MAX_ENEMIES], k: usize, last: usize, nobody: T)
    requires one { k < MAX_ENEMIES }
    requires other { last < MAX_ENEMIES }
    ensures { a.new ≡ set (set a.old k (get_or a.old last nobody)) last nobody }
{
    a[k] = a[last];
    a[last] = nobody;
}

// One gravity tick, in place: boulders and coins fall a cell, roll off rounded neighbours, and a falling one
// crushes the player or squashes a creature. Bottom-up, left to right.
pub fn gravity_on(
    grid: &mut [u8; AREA],
    falling: &mut [bool; AREA],
    spots: &mut [u16; MAX_ENEMIES],
    dirs: &mut [u8; MAX_ENEMIES],
    s: Fallen,
    px: usize,
    py: usize,
) -> Fallen
    requires { Falling grid.old falling.old spots.old dirs.old s px py }
    ensures { Dropped gravity_of px py grid.old falling.old spots.old dirs.old s grid.new
        falling.new spots.new dirs.new result }
{
    let mut fallen = s;
    let player = py * W + px;
    for y in (0..H).rev() {
        // In most rows nothing can stir, and one pass over the row tells.
        if quiet(grid, falling, y) {
            continue;
        }
        for x in 0..W {
            match cell_fall(grid, falling, spots, player, x, y) {
                Fell::Quiet => {}
                Fell::Collected => fallen.coins += 1,
                Fell::Crushed => fallen.dead = true,
                Fell::Squashed(k) => {
                    fallen.count -= 1;
                    leave(spots, k, fallen.count, NOWHERE);
                    leave(dirs, k, fallen.count, 0);
                }
            }
        }
    }
    fallen
}

// One gravity tick.
pub fn gravity(m: Mine) -> Mine
    requires { WellFormed m }
    ensures { result ≡ gravity_of m }
{
    let mut grid = m.grid;
    let mut falling = m.falling;
    let Parts {
        mut spots,
        mut dirs,
    } = parts_of(m.enemies, m.count);
    let s = Fallen {
        count: m.count,
        coins: m.coins,
        dead: m.dead,
    };
    let to = gravity_on(
        &mut grid,
        &mut falling,
        &mut spots,
        &mut dirs,
        s,
        m.px,
        m.py,
    );
    Mine {
        grid,
        falling,
        enemies: enemies_of(&spots, &dirs, to.count),
        count: to.count,
        coins: to.coins,
        dead: to.dead,
        ..m
    }
}
