// Block Cutter: the picture, in a lent frame.
#![tactic(auto)]

ghost use Rattle.std.specs.Prelude.{◌≡◌, ◌&&◌};
ghost use Rattle.laws.specs.Lists.{any};
ghost use Rattle.bits.specs.Bits.{number};
ghost use Rattle.frame.specs.Frame.{pack, pixel};
ghost use Rattle.frame.specs.CodeDraw.{inked, inverted, papered};
ghost use Rattle.cutter_picture.specs.Picture.{cell_lit, cut_lit, dot_lit, ground_lit, is_ink, mover_lit, no_life};
ghost use Rattle.cutter_render.specs.CodeDraw.{Alive, Cell, Column, Four, Lent, NextPage, Paged, Peopled, Spot, cells_lit, column_lit};
ghost use Rattle.cutter_picture.specs.CodePicture.{Drawable};

use bits::TILE;
use cutter_ground::{CB_FILLED, CB_TRAIL, CN, CW, Mover};
use cutter_state::Cutter;
use frame::{PAGE_LEN, PAGES};

// Rows of cells in a page: a cell is 2 by 2 pixels.
const ROWS: usize = TILE / 2;

// Two rows of ink for a claimed or line cell.
#[tactic(auto, unfolding(bits::specs::Bits::number))]
fn cell_bits(code: u8) -> u8
    ensures { result ≡ number 2 (λ _. is_ink code) }
{
    match code {
        CB_FILLED | CB_TRAIL => 3,
        _ => 0,
    }
}

// The four cells of column cx in page p as a page byte.
fn ground_byte(grid: &[u8; CN], p: usize, cx: usize) -> u8
    requires { Four grid.now p cx }
    ensures { result ≡ number 8 (cells_lit grid.now p cx) }
{
    let at = p * ROWS * CW + cx;
    cell_bits(grid[at])
        | cell_bits(grid[at + CW]) << 2
        | cell_bits(grid[at + 2 * CW]) << 4
        | cell_bits(grid[at + 3 * CW]) << 6
}

// The ground of page p: both columns of pixels of four cells hold the same byte.
fn ground_page(frame: &mut [u8], grid: &[u8; CN], p: usize)
    requires { Paged frame.old grid.now p }
    ensures { NextPage grid.now p frame.old frame.new }
{
    for cx in 0..CW {
        let b = ground_byte(grid, p, cx);
        let at = p * PAGE_LEN + 2 * cx;
        frame[at] = b;
        frame[at + 1] = b;
    }
}

fn draw_ground(frame: &mut [u8], grid: &[u8; CN])
    requires { Lent frame.old grid.now }
    ensures { frame.new ≡ pack (ground_lit grid.now) }
{
    for p in 0..PAGES {
        ground_page(frame, grid, p);
    }
}

// INK at one pixel.
fn put_ink(frame: &mut [u8], x: usize, y: usize)
    requires { Spot frame.old x y }
    ensures { frame.new ≡ inked frame.old (dot_lit x y) }
{
    let at = y / TILE * PAGE_LEN + x;
    frame[at] |= bits::dot(x, y, y / TILE, x);
}

// PAPER at one pixel.
fn put_paper(frame: &mut [u8], x: usize, y: usize)
    requires { Spot frame.old x y }
    ensures { frame.new ≡ papered frame.old (dot_lit x y) }
{
    let at = y / TILE * PAGE_LEN + x;
    frame[at] &= !bits::dot(x, y, y / TILE, x);
}

// Inverts column x of the cells in row cy.
fn invert_column(frame: &mut [u8], x: usize, cy: usize)
    requires { Column frame.old x cy }
    ensures { frame.new ≡ inverted frame.old (column_lit x cy) }
{
    let at = cy / ROWS * PAGE_LEN + x;
    frame[at] ^= bits::cell_mask(x / 2, cy, cy / ROWS, x);
}

fn draw_enemies(frame: &mut [u8], enemies: &[Mover])
    requires { Peopled frame.old enemies.now }
    ensures { frame.new ≡ inked frame.old (λ x y. any (mover_lit x y) enemies.now) }
{
    for e in enemies {
        put_ink(frame, e.x as usize * 2, e.y as usize * 2);
    }
}

// The player: its 2x2 cell inverted, so that it shows on black ground and on claimed white alike.
fn draw_player(frame: &mut [u8], px: usize, py: usize)
    requires { Cell frame.old px py }
    ensures { frame.new ≡ inverted frame.old (cell_lit px py) }
{
    invert_column(frame, 2 * px, py);
    invert_column(frame, 2 * px + 1, py);
}

// Lives as black pips on the white top border.
fn draw_lives(frame: &mut [u8], lives: usize)
    requires { Alive frame.old lives }
    ensures { frame.new ≡ pack (λ x y. pixel frame.old x y && no_life lives x y) }
{
    for i in 0..lives {
        put_paper(frame, 2 + 3 * i, 0);
    }
}

// The ground, the creatures on it, the player inverted, then the lives.
pub fn cutter_render(c: Cutter, frame: &mut [u8])
    requires { Drawable c frame.old }
    ensures { frame.new ≡ pack (cut_lit c) }
{
    draw_ground(frame, &c.grid);
    draw_enemies(frame, &c.enemies[..c.count]);
    draw_player(frame, c.px, c.py);
    draw_lives(frame, c.lives as usize);
}
