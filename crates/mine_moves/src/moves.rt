// The player's move: in place, on the lent grid and the creatures' places, and on a state.
//
// What a move does is told as numbers, and every move changes the grid by the same stores.
ghost use Rattle.std.specs.Prelude.{◌≡◌};
ghost use Rattle.mine_state.specs.WellFormed.{WellFormed};
ghost use Rattle.mine_rules.specs.Move.{sideways, pushed, met, moved};
ghost use Rattle.mine_moves.specs.CodeSteps.{Lends, Meets, Makes, Inside, player_of, gone, playing, Stands, Steps};

use crate::ways::next_cell;
use controls::{LEFT, RIGHT};
use mine_apart::{enemy_at, free, parts_of};
use mine_state::{AREA, BOULDER, COIN, DIRT, EMPTY, EXIT, MAX_ENEMIES, Mine, W, WALL, at};

// The player's part of a state.
#[repr(C)]
#[derive(Clone, Copy)]
pub struct Player {
    pub px: usize,
    pub py: usize,
    pub coins: u32,
    pub needed: u32,
    pub dead: bool,
    pub won: bool,
}

impl Player {
    fn of(m: &Mine) -> Player
        ensures { result ≡ player_of m.now }
    {
        Player {
            px: m.px,
            py: m.py,
            coins: m.coins,
            needed: m.needed,
            dead: m.dead,
            won: m.won,
        }
    }

    // The state has this player instead.
    fn put(self, m: &mut Mine)
        ensures { m.new ≡ playing m.old.falling m.old.grid m.old.enemies m.old.count self }
    {
        m.px = self.px;
        m.py = self.py;
        m.coins = self.coins;
        m.needed = self.needed;
        m.dead = self.dead;
        m.won = self.won;
    }
}

// The player after a move, and one cell with its code. The player's own cell is empty besides.
#[derive(Clone, Copy)]
pub struct Move {
    pub player: Player,
    pub at: usize,
    pub code: u8,
}

// The player stands at (x, y) instead.
fn go(s: Move, x: usize, y: usize) -> Move
    ensures { result ≡ gone s x y }
{
    Move {
        player: Player {
            px: x,
            py: y,
            ..s.player
        },
        ..s
    }
}

// Along a row.
fn sideways(dir: u8) -> bool
    ensures { result ≡ sideways dir }
{
    matches!(dir, RIGHT | LEFT)
}

// Only a horizontal shove, and only into a free cell beyond. `s` is what staying is, so its cell is the player's.
fn push(grid: &[u8; AREA], spots: &[u16; MAX_ENEMIES], s: Move, dir: u8, x: usize, y: usize) -> Move
    requires { Meets grid.now spots.now s x y }
    ensures { Makes grid.now spots.now s result (λ m. pushed m dir x y) × Inside result }
{
    if !sideways(dir) {
        return s;
    }
    let Some((bx, by)) = next_cell(dir, x, y) else {
        return s;
    };
    if !free(grid, spots, s.at, bx, by) {
        return s;
    }
    Move {
        at: by * W + bx,
        code: BOULDER,
        ..go(s, x, y)
    }
}

// What the player meets at (x, y): dug, collected, pushed, or left as it is.
fn meet(grid: &[u8; AREA], spots: &[u16; MAX_ENEMIES], s: Move, dir: u8, x: usize, y: usize) -> Move
    requires { Meets grid.now spots.now s x y }
    ensures { Makes grid.now spots.now s result (λ m. met m dir x y) × Inside result }
{
    let p = s.player;
    match at(grid, x, y) {
        WALL => s,
        EXIT => if p.needed <= p.coins {
            Move {
                player: Player { won: true, ..p },
                ..s
            }
        } else {
            s
        },
        DIRT | EMPTY => go(s, x, y),
        COIN => Move {
            player: Player {
                px: x,
                py: y,
                coins: p.coins + 1,
                ..p
            },
            ..s
        },
        BOULDER => push(grid, spots, s, dir, x, y),
        _ => s,
    }
}

// Off the grid, nothing; a creature there kills.
fn decide(grid: &[u8; AREA], spots: &[u16; MAX_ENEMIES], s: Move, dir: u8) -> Move
    requires { Lends grid.now spots.now s }
    ensures { Makes grid.now spots.now s result (λ m. moved m dir) × Inside result }
{
    let Some((x, y)) = next_cell(dir, s.player.px, s.player.py) else {
        return s;
    };
    if let Some(_) = enemy_at(spots, y * W + x) {
        return Move {
            player: Player {
                dead: true,
                ..s.player
            },
            ..s
        };
    }
    meet(grid, spots, s, dir, x, y)
}

// Move the player by one step, in place, digging, collecting, or pushing as the target allows.
pub fn step_on(grid: &mut [u8; AREA], spots: &[u16; MAX_ENEMIES], p: Player, dir: u8) -> Player
    requires { Stands grid.old spots.now p }
    ensures { Steps grid.old spots.now p dir grid.new result }
{
    let s = Move {
        player: p,
        at: p.py * W + p.px,
        code: EMPTY,
    };
    let to = decide(grid, spots, s, dir);
    grid[to.at] = to.code;
    grid[to.player.py * W + to.player.px] = EMPTY;
    to.player
}

// Move the player by one step.
pub fn step_player(mut m: Mine, dir: u8) -> Mine
    requires { WellFormed m }
    ensures { result ≡ moved m dir }
{
    let parts = parts_of(m.enemies, m.count);
    let p = Player::of(&m);
    let to = step_on(&mut m.grid, &parts.spots, p, dir);
    to.put(&mut m);
    m
}
