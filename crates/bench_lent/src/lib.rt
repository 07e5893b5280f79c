// What the rules on a state call, on lent arrays, for bench/ to measure. It stands apart from `bench_rules`, since what two exports of one
// library share is compiled as a call of its own. They have a `requires`, so no host links them. Block Cutter here, on a lent ground.
#![tactic(auto)]

mod mines;

ghost use Rattle.std.specs.Prelude.{◌≡◌};
ghost use Rattle.cutter_moves.specs.CodeMoves.{Ticks, tick_of};
ghost use Rattle.cutter_moves.specs.CodeSteps.{playing, Walks, SteppedOn};

use cutter_ground::{CN, MAX_ENEMIES, Mover};
use cutter_moves::{Moved, Player, Step};

// The creatures, as a C struct holds them.
#[repr(C)]
#[derive(Clone, Copy)]
pub struct Movers {
    pub enemies: [Mover; MAX_ENEMIES],
}

// The creature tick.
#[unsafe(no_mangle)]
pub extern "C" fn rule_cutter_tick_on(grid: &[u8; CN], movers: Movers, count: usize) -> Moved
    requires { Ticks grid.now movers.enemies count }
    ensures { result ≡ tick_of grid.now movers.enemies count }
{
    let enemies = movers.enemies;
    cutter_moves::tick(grid, enemies, count)
}

// A step. One that closes a cut leaves the ground as it was, and the closing to the rule on the state.
#[unsafe(no_mangle)]
pub extern "C" fn rule_cutter_step_on(
    grid: &mut [u8; CN],
    movers: Movers,
    count: usize,
    px: usize,
    py: usize,
    dx: i8,
    dy: i8,
    trailing: bool,
    dead: bool,
) -> Step
    requires { Walks grid.old count px py }
    ensures { SteppedOn grid.old movers.enemies count (playing grid.old px py dx dy trailing dead) result grid.new }
{
    let enemies = movers.enemies;
    let player = Player {
        px,
        py,
        dx,
        dy,
        trailing,
        dead,
    };
    cutter_moves::step_on(grid, enemies, count, player)
}
