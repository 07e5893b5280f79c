// The cells ahead, the way a velocity or a direction points; CN where there is none.
ghost use Rattle.std.specs.Prelude.{◌≡◌, ◌<◌, ◌%◌};
ghost use Rattle.cutter_ground.specs.Cells.{CW, CN};
ghost use Rattle.cutter_rules.specs.Ahead.{side_of, vertical_of, diagonal_of};
ghost use Rattle.cutter_moves.specs.CodeMoves.{Across, Along};

use cutter_ground::{CW, down_of, left_of, right_of, up_of};

pub fn side_of(at: usize, v: i8) -> usize
    ensures { result ≡ side_of v at }
{
    if v < 0 {
        return left_of(at);
    }
    if 0 < v {
        return right_of(at);
    }
    at
}

pub fn vertical_of(at: usize, v: i8) -> usize
    ensures { result ≡ vertical_of v at }
{
    if v < 0 {
        return up_of(at);
    }
    if 0 < v {
        return down_of(at);
    }
    at
}

pub fn diagonal_of(at: usize, vx: i8, vy: i8) -> usize
    ensures { result ≡ diagonal_of vx vy at }
{
    side_of(vertical_of(at, vy), vx)
}

// The side cell where there is one on either side, and the velocity is 1 or -1.
pub fn side_in(at: usize, v: i8) -> usize
    requires { Across at v }
    ensures { (result ≡ side_of v at) × (result < CN) }
{
    if v < 0 { at - 1 } else { at + 1 }
}

// The vertical cell, likewise. It lies in the same column.
pub fn vertical_in(at: usize, v: i8) -> usize
    requires { Along at v }
    ensures { (result ≡ vertical_of v at) × (result < CN) × (result % CW ≡ at % CW) }
{
    if v < 0 { at - CW } else { at + CW }
}
