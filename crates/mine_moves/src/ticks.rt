// The creatures' tick: in place, on the lent grid and the creatures taken apart, and on a state.
ghost use Rattle.std.specs.Prelude.{◌≡◌};
ghost use Rattle.mine_state.specs.WellFormed.{WellFormed};
ghost use Rattle.mine_rules.specs.Tick.{turns, way_of, chosen, enemies_moved};
ghost use Rattle.mine_moves.specs.CodeSteps.{Walks, Walkers, Tells, Ticked};

use crate::ways::next_cell;
use mine_apart::{enemies_of, enemy_at, parts_of};
use mine_state::{AREA, EMPTY, Enemy, MAX_ENEMIES, Mine, W, at};

// Left, straight, right, back.
const TURNS: [u8; 4] = [3, 0, 1, 2];

// Creatures travel only through open tunnels, never through anyone else.
fn way(grid: &[u8; AREA], spots: &[u16; MAX_ENEMIES], e: Enemy, dir: u8) -> Option<Enemy>
    requires { Walks grid.now spots.now e }
    ensures { Tells grid.now spots.now result (λ m. way_of m e dir) }
{
    let (x, y) = next_cell(dir, e.x, e.y)?;
    if at(grid, x, y) != EMPTY {
        return None;
    }
    if let Some(_) = enemy_at(spots, y * W + x) {
        return None;
    }
    Some(Enemy { x, y, dir })
}

// Prefer turning left, then straight, then right, then back.
fn choose(grid: &[u8; AREA], spots: &[u16; MAX_ENEMIES], e: Enemy) -> Option<Enemy>
    requires { Walks grid.now spots.now e }
    ensures { Tells grid.now spots.now result (λ m. chosen m e turns) }
{
    for turn in TURNS {
        if let Some(to) = way(grid, spots, e, (e.dir + turn) % 4) {
            return Some(to);
        }
    }
    None
}

// One creature tick, in place: each patrols the tunnels by a left-hand rule and catches the player on contact. The answer is
// whether one did.
pub fn tick_on(
    grid: &[u8; AREA],
    spots: &mut [u16; MAX_ENEMIES],
    dirs: &mut [u8; MAX_ENEMIES],
    count: usize,
    px: usize,
    py: usize,
) -> bool
    requires { Walkers grid.now spots.old dirs.old count }
    ensures { Ticked enemies_moved grid.now count px py spots.old dirs.old result spots.new dirs.new }
{
    let mut caught = false;
    for k in 0..count {
        let from = spots[k] as usize;
        let e = Enemy {
            x: from % W,
            y: from / W,
            dir: dirs[k],
        };
        if let Some(to) = choose(grid, spots, e) {
            spots[k] = (to.y * W + to.x) as u16;
            dirs[k] = to.dir;
            caught |= (px == to.x) & (py == to.y);
        }
    }
    caught
}

// One creature tick.
pub fn move_enemies(mut m: Mine) -> Mine
    requires { WellFormed m }
    ensures { result ≡ enemies_moved m }
{
    // A copy is lent: a state whose grid is lent itself is copied twice.
    let grid = m.grid;
    let mut parts = parts_of(m.enemies, m.count);
    let caught = tick_on(
        &grid,
        &mut parts.spots,
        &mut parts.dirs,
        m.count,
        m.px,
        m.py,
    );
    m.enemies = enemies_of(&parts.spots, &parts.dirs, m.count);
    m.dead = caught | m.dead;
    m
}
