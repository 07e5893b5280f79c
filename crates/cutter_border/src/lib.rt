// The walk to the border: from where the player stands, over claimed cells, to the nearest cell beside black.
#![tactic(auto)]

ghost use Rattle.std.specs.Prelude.{◌≡◌, [], ◌∷◌};
ghost use Rattle.cutter_ground.specs.Cells.{CN};
ghost use Rattle.cutter_border.specs.CodeBorder.{walk, to_border};
ghost use Rattle.cutter_border.specs.CodeTables.{Cleared, Standing};

use cutter_ground::{CB_FILLED, CN, SEEN};

// Where a walk ends, and how many cells it took, the last one included.
#[derive(Clone, Copy)]
pub struct Walked {
    pub at: usize,
    pub taken: usize,
}

// Walks breadth first from start to the first cell beside black; where there is none, the walk ends at start.
fn seek(grid: &[u8; CN], seen: &mut [u8; CN], queue: &mut [u16; CN], start: usize) -> Walked
    requires { Cleared grid.now seen.old queue.old start }
    ensures { result ≡ walk CN grid.now start (start ∷ []) 0 }
{
    seen[start] = SEEN;
    queue[0] = start as u16;
    let mut head: usize = 0;
    let mut tail: usize = 1;
    while head < tail {
        let at = queue[head] as usize;
        head += 1;
        if cutter_ground::on_border(grid, at) {
            return Walked { at, taken: head };
        }
        tail = cutter_ground::around(grid, seen, queue, tail, at, CB_FILLED);
    }
    Walked {
        at: start,
        taken: head,
    }
}

// Where the player at start has to go to stand on the border: nowhere, if that is beside black already.
#[tactic(auto, unfolding(crate::specs::CodeBorder::to_border))]
pub fn move_to_border(grid: &[u8; CN], start: usize) -> Walked
    requires { Standing grid.now start }
    ensures { result ≡ to_border grid.now start }
{
    if cutter_ground::on_border(grid, start) {
        return Walked {
            at: start,
            taken: 0,
        };
    }
    let mut seen = [0u8; CN];
    let mut queue = [0u16; CN];
    seek(grid, &mut seen, &mut queue, start)
}
