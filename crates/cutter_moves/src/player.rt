// The player: direction, step and respawn.
ghost use Rattle.std.specs.Prelude.{false, ◌&&◌, ◌≡◌, ◌<◌, take};
ghost use Rattle.cutter_ground.specs.Cells.{CN, claimed_at};
ghost use Rattle.cutter_state.specs.WellFormed.{is_zero, WellFormed};
ghost use Rattle.cutter_capture.specs.CodeSteps.{Closes, CutClosed};
ghost use Rattle.cutter_closing.specs.Counted.{MAX_COMP};
ghost use Rattle.cutter_rules.specs.Step.{directed, trailing_step, walking_step};
ghost use Rattle.cutter_moves.specs.CodeSteps.{playing, stopping, dying, going, laying, shutting, Lends, Walks, Makes, Decides, Stepped, SteppedOn};
ghost use Rattle.cutter_rules.specs.Cost.{step_made, swept_made, respawn_made};

use crate::ahead::diagonal_of;
use crate::enemies::enemy_at;
use controls::{DOWN, RIGHT, UP};
use cutter_border::move_to_border;
use cutter_capture::{Closed, MAX_COMP, close_by_sweeps, close_cut, recode_line};
use cutter_ground::{CB_BLACK, CB_FILLED, CB_TRAIL, CN, CW, MAX_ENEMIES, Mover, cell, on_border};
use cutter_level::at_start;
use cutter_rules::Made;
use cutter_state::Cutter;

// The direction becomes the unit step that way.
pub fn direction(c: Cutter, dir: u8) -> Cutter
    ensures { result ≡ directed c dir }
{
    let (dx, dy) = match dir {
        UP => (0, -1),
        RIGHT => (1, 0),
        DOWN => (0, 1),
        _ => (-1, 0),
    };
    Cutter { dx, dy, ..c }
}

// What a step asks of the player.
#[derive(Clone, Copy)]
pub struct Player {
    pub px: usize,
    pub py: usize,
    pub dx: i8,
    pub dy: i8,
    pub trailing: bool,
    pub dead: bool,
}

// The player's part of a state, and one cell with its code, or the cell at which the step closes a cut.
#[repr(C)]
#[derive(Clone, Copy)]
pub struct Step {
    pub px: usize,
    pub py: usize,
    pub dx: i8,
    pub dy: i8,
    pub trailing: bool,
    pub dead: bool,
    pub closes: bool,
    pub at: usize,
    pub code: u8,
}

impl Step {
    fn is_standing(self) -> bool
        ensures { result ≡ (is_zero self.dx && is_zero self.dy) }
    {
        self.dx == 0 && self.dy == 0
    }

    // The direction clears.
    fn stopped(mut self) -> Step
        ensures { result ≡ stopping self }
    {
        self.dx = 0;
        self.dy = 0;
        self
    }

    fn killed(mut self) -> Step
        ensures { result ≡ dying self }
    {
        self.dead = true;
        self
    }

    // The player enters the cell at.
    fn entered(mut self, at: usize) -> Step
        ensures { result ≡ going self at }
    {
        self.px = at % CW;
        self.py = at / CW;
        self
    }

    // The player enters the cell at and leaves line there.
    fn laid(self, at: usize) -> Step
        ensures { result ≡ laying self at }
    {
        let mut to = self.entered(at);
        to.at = at;
        to.code = CB_TRAIL;
        to
    }

    // The step closes a cut at the cell at.
    fn closing(mut self, at: usize) -> Step
        ensures { result ≡ shutting self at }
    {
        self.at = at;
        self.closes = true;
        self
    }
}

// While drawing: crossing your own line is fatal, claimed ground closes the cut, black takes the line on. `s` is what staying is.
fn step_trailing(grid: &[u8; CN], s: Step, at: usize) -> Step
    requires { Lends grid.now s at }
    ensures { Makes grid.now s result (λ c. trailing_step c at) (λ c. claimed_at c.grid at) at × (result.at < CN) }
{
    match cell(grid, at) {
        CB_TRAIL => s.killed(),
        CB_FILLED => s.closing(at),
        _ => s.laid(at),
    }
}

// Claimed ground is walkable only along the black's border: the player stops at the edge of the rest. Black starts a line.
fn step_walking(grid: &[u8; CN], s: Step, at: usize) -> Step
    requires { Lends grid.now s at }
    ensures { Makes grid.now s result (λ c. walking_step c at) (λ _. false) at × (result.at < CN) }
{
    if cell(grid, at) == CB_FILLED {
        if on_border(grid, at) {
            return s.entered(at);
        }
        return s.stopped();
    }
    let mut to = s.laid(at);
    to.trailing = true;
    to
}

// What the step does, told as numbers over the lent ground.
fn decide(grid: &[u8; CN], enemies: [Mover; MAX_ENEMIES], count: usize, s: Step) -> Step
    requires { Decides grid.now count s }
    ensures { Stepped grid.now enemies count s result × (result.at < CN) }
{
    if s.is_standing() {
        return s;
    }
    let at = diagonal_of(s.at, s.dx, s.dy);
    if CN <= at {
        return s.stopped();
    }
    // Walking into a creature is fatal too, not only being caught by one.
    if let Some(_) = enemy_at(&enemies[..count], at) {
        return s.killed();
    }
    if s.trailing {
        return step_trailing(grid, s, at);
    }
    step_walking(grid, s, at)
}

// One movement step in the current direction, on the lent ground: lays the line as it goes. Answers the player's part of the state
// afterwards; where it closes a cut, the ground stays as it was.
pub fn step_on(grid: &mut [u8; CN], enemies: [Mover; MAX_ENEMIES], count: usize, p: Player) -> Step
    requires { Walks grid.old count p.px p.py }
    ensures { SteppedOn grid.old enemies count (playing grid.old p.px p.py p.dx p.dy p.trailing p.dead) result grid.new }
{
    let own = p.py * CW + p.px;
    let s = Step {
        px: p.px,
        py: p.py,
        dx: p.dx,
        dy: p.dy,
        trailing: p.trailing,
        dead: p.dead,
        closes: false,
        at: own,
        code: grid[own],
    };
    let to = decide(grid, enemies, count, s);
    if to.closes {
        return to;
    }
    grid[to.at] = to.code;
    to
}

// What closes a cut: the search of a queue, or sweeps.
#[derive(Clone, Copy)]
enum Closing {
    Queue,
    Sweeps,
}

// Close a finished line: it becomes claimed, then every side of the black but one is captured.
fn close(grid: &mut [u8; CN], enemies: [Mover; MAX_ENEMIES], count: usize, by: Closing) -> Closed
    requires { Closes grid.old enemies count MAX_COMP }
    ensures { CutClosed MAX_COMP grid.old (take count enemies) grid.new result }
{
    let limit = MAX_COMP as u16;
    match by {
        Closing::Queue => close_cut(grid, enemies, count, limit),
        Closing::Sweeps => close_by_sweeps(grid, enemies, count, limit),
    }
}

// How many cells were taken by the search of a closing and by the walk to the border.
#[derive(Clone, Copy)]
struct Taken {
    searched: u16,
    walked: u16,
}

// One movement step, where the state lies. A closed cut takes the player to the nearest cell beside black, since it can capture the side
// that the player stands against.
fn step_in(game: &mut Cutter, by: Closing) -> Taken
    requires { WellFormed game.old }
    ensures { record { game = game.new; searched = result.searched; walked = result.walked } ≡ step_made game.old }
{
    let enemies = game.enemies;
    let player = Player {
        px: game.px,
        py: game.py,
        dx: game.dx,
        dy: game.dy,
        trailing: game.trailing,
        dead: game.dead,
    };
    let to = step_on(&mut game.grid, enemies, game.count, player);
    if to.closes {
        let herd = close(&mut game.grid, enemies, game.count, by);
        let end = move_to_border(&game.grid, to.at);
        let left = herd.enemies;
        game.enemies = left;
        game.count = herd.count;
        game.trailing = false;
        game.px = end.at % CW;
        game.py = end.at / CW;
        return Taken {
            searched: herd.searched,
            walked: end.taken as u16,
        };
    }
    game.px = to.px;
    game.py = to.py;
    game.dx = to.dx;
    game.dy = to.dy;
    game.trailing = to.trailing;
    game.dead = to.dead;
    Taken {
        searched: 0,
        walked: 0,
    }
}

// One movement step. The state is copied once, and changed where it lies.
pub fn step_player(c: Cutter) -> Made
    requires { WellFormed c }
    ensures { result ≡ step_made c }
{
    let mut game = c;
    let Taken { searched, walked } = step_in(&mut game, Closing::Queue);
    Made {
        game,
        searched,
        walked,
    }
}

// One movement step whose cut is closed by sweeps: nothing is searched.
pub fn step_by_sweeps(c: Cutter) -> Made
    requires { WellFormed c }
    ensures { result ≡ swept_made c }
{
    let mut game = c;
    let Taken { walked, .. } = step_in(&mut game, Closing::Sweeps);
    Made {
        game,
        searched: 0,
        walked,
    }
}

// The line is black again, and the player back at the start, or on the nearest cell beside black: the start can end up inside claimed ground.
pub fn respawn(c: Cutter) -> Made
    ensures { result ≡ respawn_made c }
{
    let mut out = at_start(c);
    recode_line(&mut out.grid, CB_BLACK);
    let at = out.py * CW + out.px;
    let end = move_to_border(&out.grid, at);
    out.px = end.at % CW;
    out.py = end.at / CW;
    Made {
        game: out,
        searched: 0,
        walked: end.taken as u16,
    }
}
