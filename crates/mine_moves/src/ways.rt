// The cell one step away.
ghost use Rattle.std.specs.Prelude.{◌≡◌};
ghost use Rattle.mine_rules.specs.Ways.{next_cell};
ghost use Rattle.mine_rules.specs.CodeWays.{OnGrid};

use controls::{DOWN, RIGHT, UP};
use mine_state::{H, W};

// One step from (x, y) in the direction dir.
#[tactic(auto, unfolding(mine_rules::specs::Ways::next_cell))]
pub fn next_cell(dir: u8, x: usize, y: usize) -> Option<(usize, usize)>
    requires { OnGrid x y }
    ensures { result ≡ next_cell dir x y }
{
    match dir {
        UP => (0 < y).then(|| (x, y - 1)),
        RIGHT => (x + 1 < W).then(|| (x + 1, y)),
        DOWN => (y + 1 < H).then(|| (x, y + 1)),
        _ => (0 < x).then(|| (x - 1, y)),
    }
}
