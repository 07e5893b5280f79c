// The host's question: who is at a cell, and how many.
ghost use Rattle.std.specs.Prelude.{◌≡◌, take};
ghost use Rattle.cutter.specs.Question.{who_at};

use cutter_ground::{MAX_ENEMIES, Mover};
use found::Found;

// The first of a lent list at (x, y) and how many are there, or nobody.
pub fn who(list: &[Mover], x: usize, y: usize) -> Option<Found>
    ensures { result ≡ who_at list.now x y }
{
    found::who(list, x, y)
}

// The same of the first n of an array, of all where n is more.
pub fn who_of(enemies: [Mover; MAX_ENEMIES], n: usize, x: usize, y: usize) -> Option<Found>
    ensures { result ≡ who_at (take n enemies) x y }
{
    who(&enemies[..n.min(MAX_ENEMIES)], x, y)
}
