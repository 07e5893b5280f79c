// Block Mine, its creatures taken apart.
ghost use Rattle.mine_rules.specs.Tick.{enemies_moved};
ghost use Rattle.mine_rules.specs.Gravity.{gravity_of};
ghost use Rattle.mine_moves.specs.CodeSteps.{Stands, Steps, Walkers, Ticked};
ghost use Rattle.mine_fall.specs.CodePlaces.{Falling, Dropped};

use mine_fall::Fallen;
use mine_moves::Player;
use mine_state::{AREA, MAX_ENEMIES};

#[unsafe(no_mangle)]
pub extern "C" fn rule_mine_step_on(
    grid: &mut [u8; AREA],
    spots: &[u16; MAX_ENEMIES],
    px: usize,
    py: usize,
    coins: u32,
    needed: u32,
    dead: bool,
    won: bool,
    dir: u8,
) -> Player
    requires { Stands grid.old spots.now (record { px = px; py = py; coins = coins; needed = needed; dead = dead; won = won }) }
    ensures { Steps grid.old spots.now
        (record { px = px; py = py; coins = coins; needed = needed; dead = dead; won = won }) dir grid.new result }
{
    let p = Player {
        px,
        py,
        coins,
        needed,
        dead,
        won,
    };
    mine_moves::step_on(grid, spots, p, dir)
}

#[unsafe(no_mangle)]
pub extern "C" fn rule_mine_gravity_on(
    grid: &mut [u8; AREA],
    falling: &mut [bool; AREA],
    spots: &mut [u16; MAX_ENEMIES],
    dirs: &mut [u8; MAX_ENEMIES],
    s: Fallen,
    px: usize,
    py: usize,
) -> Fallen
    requires { Falling grid.old falling.old spots.old dirs.old s px py }
    ensures { Dropped gravity_of px py grid.old falling.old spots.old dirs.old s grid.new
        falling.new spots.new dirs.new result }
{
    mine_fall::gravity_on(grid, falling, spots, dirs, s, px, py)
}

#[unsafe(no_mangle)]
pub extern "C" fn rule_mine_tick_on(
    grid: &[u8; AREA],
    spots: &mut [u16; MAX_ENEMIES],
    dirs: &mut [u8; MAX_ENEMIES],
    count: usize,
    px: usize,
    py: usize,
) -> bool
    requires { Walkers grid.now spots.old dirs.old count }
    ensures { Ticked enemies_moved grid.now count px py spots.old dirs.old result spots.new dirs.new }
{
    mine_moves::tick_on(grid, spots, dirs, count, px, py)
}
