// What happens at a cell, on the lent grid, marks and places.
ghost use Rattle.std.specs.Prelude.{true, false, ◌≡◌, ◌<◌, ◌+◌};
ghost use Rattle.mine_state.specs.State.{W};
ghost use Rattle.mine_apart.specs.CodeApart.{Lent};
ghost use Rattle.mine_fall.specs.declared.cells.Fell.TheVariants.{Quiet};
ghost use Rattle.mine_rules.specs.Gravity.{is_object, carried, over_player, over_empty, rolled, cell_fall};
ghost use Rattle.mine_fall.specs.CodeFalls.{LentCell, LentCells, Reached, open_spot, Barely, Quietly, Does, Falls};
ghost use Rattle.mine_state.specs.CodeState.{CellOf};

use mine_apart::{enemy_at, free};
use mine_state::{AREA, BOULDER, COIN, EMPTY, H, MAX_ENEMIES, W};

// What an object did, beside moving.
#[derive(Clone, Copy)]
pub enum Fell {
    Quiet,
    Collected,
    Crushed,
    Squashed(usize),
}

fn is_object(t: u8) -> bool
    ensures { result ≡ is_object t }
{
    (t == BOULDER) | (t == COIN)
}

// Two cells of a column are free.
fn open_side(
    grid: &[u8; AREA],
    spots: &[u16; MAX_ENEMIES],
    player: usize,
    x: usize,
    y: usize,
    by: usize,
) -> bool
    requires { Lent grid.now spots.now }
    ensures { result ≡ open_spot grid.now spots.now player x y by }
{
    free(grid, spots, player, x, y) && free(grid, spots, player, x, by)
}

// No cell of the row y holds an object.
fn bare(grid: &[u8; AREA], y: usize) -> bool
    requires { CellOf grid.now 0 y }
    ensures { result ≡ true → Barely grid.now y W }
{
    let mut some = false;
    for x in 0..W {
        some |= is_object(grid[y * W + x]);
    }
    !some
}

// Nothing in the row y can stir: each object is unmarked, and stands on something that is neither empty nor an object.
pub fn quiet(grid: &[u8; AREA], falling: &[bool; AREA], y: usize) -> bool
    requires { LentCell grid.now falling.now 0 y }
    ensures { result ≡ true → Quietly grid.now falling.now y W }
{
    let by = y + 1;
    if H <= by {
        return bare(grid, y);
    }
    let mut some = false;
    for x in 0..W {
        let at = y * W + x;
        let below = grid[by * W + x];
        let loose = (below == EMPTY) | is_object(below) | falling[at];
        some |= is_object(grid[at]) & loose;
    }
    !some
}

// Move an object one cell, and mark it as falling there.
fn move_obj(
    grid: &mut [u8; AREA],
    falling: &mut [bool; AREA],
    x: usize,
    y: usize,
    nx: usize,
    ny: usize,
)
    requires { LentCells grid.old falling.old x y nx ny }
    ensures { Does (λ m. carried m x y nx ny) grid.old falling.old Quiet grid.new falling.new }
{
    let i = y * W + x;
    let j = ny * W + nx;
    grid[j] = grid[i];
    grid[i] = EMPTY;
    falling[j] = true;
    falling[i] = false;
}

// Over the player: a marked coin is collected, a marked boulder crushes; the mark clears.
fn over_player(grid: &mut [u8; AREA], falling: &mut [bool; AREA], x: usize, y: usize) -> Fell
    requires { LentCell grid.old falling.old x y }
    ensures { Does (λ m. over_player m x y) grid.old falling.old result grid.new falling.new }
{
    let i = y * W + x;
    let marked = falling[i];
    falling[i] = false;
    if marked {
        if grid[i] == COIN {
            grid[i] = EMPTY;
            return Fell::Collected;
        }
        return Fell::Crushed;
    }
    Fell::Quiet
}

// Over an empty cell: onto the player, onto a creature, or down.
fn over_empty(
    grid: &mut [u8; AREA],
    falling: &mut [bool; AREA],
    spots: &[u16; MAX_ENEMIES],
    player: usize,
    x: usize,
    y: usize,
) -> Fell
    requires { Reached grid.old falling.old spots.now x (y + 1) }
    ensures { Falls spots.now player (λ m. over_empty m x y) grid.old falling.old result grid.new falling.new }
{
    let by = y + 1;
    let at = by * W + x;
    if player == at {
        return over_player(grid, falling, x, y);
    }
    let Some(found) = enemy_at(spots, at) else {
        move_obj(grid, falling, x, y, x, by);
        return Fell::Quiet;
    };
    let i = y * W + x;
    if falling[i] {
        move_obj(grid, falling, x, y, x, by);
        return Fell::Squashed(found.index);
    }
    falling[i] = false;
    Fell::Quiet
}

// Roll off a rounded object: to the left, else to the right, where that side is open.
fn roll(
    grid: &mut [u8; AREA],
    falling: &mut [bool; AREA],
    spots: &[u16; MAX_ENEMIES],
    player: usize,
    x: usize,
    y: usize,
)
    requires { Reached grid.old falling.old spots.now x (y + 1) }
    ensures { Falls spots.now player (λ m. rolled m x y) grid.old falling.old Quiet grid.new falling.new }
{
    let by = y + 1;
    if 0 < x && open_side(grid, spots, player, x - 1, y, by) {
        move_obj(grid, falling, x, y, x - 1, y);
    } else if open_side(grid, spots, player, x + 1, y, by) {
        move_obj(grid, falling, x, y, x + 1, y);
    }
}

// One cell, as it is when reached.
pub fn cell_fall(
    grid: &mut [u8; AREA],
    falling: &mut [bool; AREA],
    spots: &[u16; MAX_ENEMIES],
    player: usize,
    x: usize,
    y: usize,
) -> Fell
    requires { Reached grid.old falling.old spots.now x y }
    ensures { Falls spots.now player (λ m. cell_fall m x y) grid.old falling.old result grid.new falling.new }
{
    let i = y * W + x;
    if !is_object(grid[i]) {
        return Fell::Quiet;
    }
    let by = y + 1;
    if H <= by {
        falling[i] = false;
        return Fell::Quiet;
    }
    let below = grid[by * W + x];
    if below == EMPTY {
        return over_empty(grid, falling, spots, player, x, y);
    }
    // Rest, then roll off a rounded object if a diagonal is clear.
    falling[i] = false;
    if is_object(below) {
        roll(grid, falling, spots, player, x, y);
    }
    Fell::Quiet
}
