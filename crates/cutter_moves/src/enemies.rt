// The creatures: who is at a cell, and their tick.
ghost use Rattle.std.specs.Prelude.{cond, ◌&&◌, ◌||◌, ◌≡◌, ◌<◌, ◌≤◌, eqb, position};
ghost use Rattle.cutter_ground.specs.Cells.{CN, CB_BLACK, CB_TRAIL};
ghost use Rattle.cutter_state.specs.WellFormed.{WellFormed};
ghost use Rattle.cutter_rules.specs.Tick.{flipped, gone_to, bounced, enemies_stepped};
ghost use Rattle.cutter_moves.specs.CodeMoves.{Roams, Bounces, Ticks, view_of, mover_at, roam_of, tick_of};
ghost use Rattle.cutter_rules.specs.Step.{is_at, creature_at};
ghost use Rattle.cutter_ground.specs.Movers.{MAX_ENEMIES};

use crate::ahead::{side_in, vertical_in};
use cutter_ground::{CB_BLACK, CB_TRAIL, CN, CW, MAX_ENEMIES, Mover, cell_of};
use cutter_state::Cutter;
use found::Found;

// The first slot of a cell.
fn slot_of(herd: &[Mover], at: usize) -> Option<usize>
    ensures { result ≡ position (is_at at) herd.now }
{
    herd.iter().position(|e| cell_of(*e) == at)
}

// The first creature at a cell and how many are there, or nobody.
pub fn enemy_at(herd: &[Mover], at: usize) -> Option<Found>
    ensures { result ≡ creature_at herd.now at }
{
    let index = slot_of(herd, at)?;
    let number = herd.iter().filter(|e| cell_of(**e) == at).count();
    Some(Found { index, number })
}

// What a creature has ahead: the diagonal cell, and what the side, the vertical and the diagonal one hold.
#[derive(Clone, Copy)]
pub struct View {
    pub to: usize,
    pub side: u8,
    pub vertical: u8,
    pub diagonal: u8,
}

// A creature stands inside the ring, so no edge is near.
fn look(grid: &[u8; CN], e: Mover) -> View
    requires { Roams grid.now e e.vx e.vy }
    ensures { (result ≡ view_of grid.now e) × (result.to < CN) }
{
    let at = cell_of(e);
    let beside = side_in(at, e.vx);
    let above = vertical_in(at, e.vy);
    let to = side_in(above, e.vx);
    View {
        to,
        side: grid[beside],
        vertical: grid[above],
        diagonal: grid[to],
    }
}

impl View {
    fn is_clear(self) -> bool
        ensures { result ≡ (eqb self.side CB_BLACK && eqb self.vertical CB_BLACK && eqb self.diagonal CB_BLACK) }
    {
        self.side == CB_BLACK && self.vertical == CB_BLACK && self.diagonal == CB_BLACK
    }

    // Touching the line, in any of the three cells ahead, is a breach.
    fn is_line(self) -> bool
        ensures { result ≡ (eqb self.side CB_TRAIL || eqb self.vertical CB_TRAIL || eqb self.diagonal CB_TRAIL) }
    {
        self.side == CB_TRAIL || self.vertical == CB_TRAIL || self.diagonal == CB_TRAIL
    }
}

fn flip(v: i8) -> i8
    ensures { result ≡ flipped v }
{
    if v < 0 { 1 } else { -1 }
}

// A velocity part, flipped if what is ahead is not black.
fn turn(code: u8, v: i8) -> i8
    ensures { result ≡ cond (eqb code CB_BLACK) v (flipped v) }
{
    if code == CB_BLACK { v } else { flip(v) }
}

fn put(to: usize, vx: i8, vy: i8) -> Mover
    requires { to < CN }
    ensures { result ≡ mover_at to vx vy }
{
    Mover {
        x: (to % CW) as u8,
        y: (to / CW) as u8,
        vx,
        vy,
    }
}

// Cornered: keep the velocity, stay put this tick.
fn go(grid: &[u8; CN], e: Mover, vx: i8, vy: i8) -> Mover
    requires { Roams grid.now e vx vy }
    ensures { result ≡ gone_to grid.now e vx vy }
{
    let above = vertical_in(cell_of(e), vy);
    let to = side_in(above, vx);
    if grid[to] == CB_BLACK {
        return put(to, vx, vy);
    }
    Mover { vx, vy, ..e }
}

fn bounce(grid: &[u8; CN], e: Mover, v: View) -> Mover
    requires { Bounces grid.now e v }
    ensures { result ≡ bounced grid.now e }
{
    let vx = turn(v.side, e.vx);
    let vy = turn(v.vertical, e.vy);
    go(grid, e, vx, vy)
}

// Bounce diagonally through the black: straight on where all three cells ahead are. None where the creature met the line.
fn roam(grid: &[u8; CN], e: Mover) -> Option<Mover>
    requires { Roams grid.now e e.vx e.vy }
    ensures { result ≡ roam_of grid.now e }
{
    let v = look(grid, e);
    if v.is_clear() {
        return Some(put(v.to, e.vx, e.vy));
    }
    if v.is_line() {
        return None;
    }
    Some(bounce(grid, e, v))
}

// The creatures after a tick, and whether one of them met the line.
#[repr(C)]
#[derive(Clone, Copy)]
pub struct Moved {
    pub enemies: [Mover; MAX_ENEMIES],
    pub dead: bool,
}

// Each of the first `count` creatures in order, up to one that meets the line.
pub fn tick(grid: &[u8; CN], enemies: [Mover; MAX_ENEMIES], count: usize) -> Moved
    requires { Ticks grid.now enemies count }
    ensures { result ≡ tick_of grid.now enemies count }
{
    let mut out = enemies;
    for i in 0..count {
        let Some(to) = roam(grid, out[i]) else {
            return Moved {
                enemies: out,
                dead: true,
            };
        };
        out[i] = to;
    }
    Moved {
        enemies: out,
        dead: false,
    }
}

// One creature step: bounce diagonally through the black, and end the run if one reaches the line.
pub fn step_enemies(c: Cutter) -> Cutter
    requires { WellFormed c }
    ensures { result ≡ enemies_stepped c }
{
    let mut out = c;
    let herd = c.enemies;
    let t = tick(&out.grid, herd, c.count);
    let moved = t.enemies;
    out.enemies = moved;
    out.dead = c.dead | t.dead;
    out
}
