// Block Mine: the picture, in a lent frame.
#![tactic(auto)]

ghost use Rattle.std.specs.Prelude.{◌≡◌, ◌+◌, ◌≤◌, length};
ghost use Rattle.frame.specs.Frame.{FRAME_LEN, pack};
ghost use Rattle.frame.specs.CodeDraw.{Framed, unlit, inked};
ghost use Rattle.mine_picture.specs.Art.{exit_art};
ghost use Rattle.mine_picture.specs.Picture.{VIEW_H, VIEW_W, camera_of, mine_lit, window};
ghost use Rattle.mine_state.specs.State.{H, W};
ghost use Rattle.mine_render.specs.CodeDraw.{Inside, Tiled, columns_in, columns_of, enemies_lit, in_window, sprite_lit, stamp_lit, tile_lit, tiles_of};
ghost use Rattle.mine_picture.specs.CodePicture.{Drawable};

use bits::TILE;
use frame::PAGE_LEN;
use mine_state::{AREA, BOULDER, COIN, DIRT, EXIT, Enemy, H, Mine, W, WALL};

// The camera window, in tiles: 16 wide (128 px) and 7 tall, leaving a HUD row on top.
pub const VIEW_W: usize = 16;

pub const VIEW_H: usize = 7;

pub const HUD_H: usize = 8;

const DIRT_PAT: [u8; 8] = [0xAA, 0x55, 0xAA, 0x55, 0xAA, 0x55, 0xAA, 0x55];

const WALL_PAT: [u8; 8] = [0xFF, 0x88, 0x88, 0xFF, 0x22, 0x22, 0xFF, 0x88];

const BOULDER_PAT: [u8; 8] = [0x3C, 0x7E, 0xFF, 0xFF, 0xFF, 0xFF, 0x7E, 0x3C];

const COIN_PAT: [u8; 8] = [0x18, 0x24, 0x42, 0x81, 0x81, 0x42, 0x24, 0x18];

const EXIT_PAT: [u8; 8] = [0xFF, 0x81, 0x81, 0x81, 0x81, 0x81, 0x81, 0xFF];

const EXIT_OPEN_PAT: [u8; 8] = [0xFF, 0xBD, 0xA5, 0x99, 0x99, 0xA5, 0xBD, 0xFF];

const PLAYER_PAT: [u8; 8] = [0x18, 0x18, 0x3C, 0x7E, 0x18, 0x18, 0x24, 0x24];

const ENEMY_PAT: [u8; 8] = [0x81, 0x5A, 0x3C, 0x7E, 0x7E, 0x3C, 0x5A, 0x81];

const EMPTY_PAT: [u8; 8] = [0, 0, 0, 0, 0, 0, 0, 0];

// Where the camera's top-left tile sits so the player stays roughly centered.
pub fn camera(p: usize, view: usize, total: usize) -> usize
    ensures { result ≡ camera_of p view total }
{
    p.saturating_sub(view / 2).min(total.saturating_sub(view))
}

// The window's top-left tile; the grid's cells fill the window.
#[derive(Clone, Copy)]
struct View {
    x: usize,
    y: usize,
    ghost across: { x + VIEW_W ≤ W },
    ghost down: { y + VIEW_H ≤ H },
}

impl View {
    // The window around a place.
    fn around(px: usize, py: usize) -> View
        ensures left { result.x ≡ camera_of px VIEW_W W }
        ensures top { result.y ≡ camera_of py VIEW_H H }
    {
        View {
            x: camera(px, VIEW_W, W),
            y: camera(py, VIEW_H, H),
        }
    }

    // Whether the cell (x, y) is inside the window.
    fn shows(self, x: usize, y: usize) -> bool
        ensures { result ≡ in_window self.x self.y x y }
    {
        self.x <= x && x < self.x + VIEW_W && self.y <= y && y < self.y + VIEW_H
    }
}

// The columns of a tile as page bytes.
fn columns(pat: [u8; 8]) -> [u8; 8]
    ensures { result ≡ columns_of pat }
{
    let mut out = [0u8; 8];
    for (gx, column) in out.iter_mut().enumerate() {
        *column = bits::column(pat, gx);
    }
    out
}

// The columns of each tile, turned once a frame.
#[derive(Clone, Copy)]
struct Tiles {
    dirt: [u8; 8],
    wall: [u8; 8],
    boulder: [u8; 8],
    coin: [u8; 8],
    exit: [u8; 8],
}

impl Tiles {
    fn new(is_open: bool) -> Tiles
        ensures { result ≡ tiles_of is_open }
    {
        Tiles {
            dirt: columns(DIRT_PAT),
            wall: columns(WALL_PAT),
            boulder: columns(BOULDER_PAT),
            coin: columns(COIN_PAT),
            exit: columns(if is_open { EXIT_OPEN_PAT } else { EXIT_PAT }),
        }
    }

    // The columns of a cell's tile.
    #[tactic(auto, unfolding(crate::specs::CodeDraw::columns_in))]
    fn of(self, code: u8) -> [u8; 8]
        ensures { result ≡ columns_in self code }
    {
        match code {
            DIRT => self.dirt,
            WALL => self.wall,
            BOULDER => self.boulder,
            COIN => self.coin,
            EXIT => self.exit,
            _ => EMPTY_PAT,
        }
    }
}

// A blank frame.
#[tactic(auto, using(crate::proofs::Layers::blank))]
fn clear(frame: &mut [u8])
    requires { length frame.old ≡ FRAME_LEN }
    ensures { frame.new ≡ pack unlit }
{
    frame.fill(0);
}

// Adds a tile's ink in column `col` and row `row` of the window.
fn blit(frame: &mut [u8], col: usize, row: usize, cols: [u8; 8])
    requires { Inside frame.old col row cols }
    ensures { frame.new ≡ inked frame.old (stamp_lit col row cols) }
{
    let sy = HUD_H + row * TILE;
    let at = sy / TILE * PAGE_LEN + col * TILE;
    for (gx, ink) in cols.iter().enumerate() {
        frame[at + gx] |= *ink;
    }
}

// The tiles of the window.
fn draw_tiles(frame: &mut [u8], view: View, grid: &[u8; AREA], is_open: bool)
    requires { Tiled frame.old grid.now }
    ensures { frame.new ≡ inked frame.old (window view.x view.y (tile_lit grid.now is_open)) }
{
    let tiles = Tiles::new(is_open);
    for k in 0..VIEW_W * VIEW_H {
        let col = k % VIEW_W;
        let row = k / VIEW_W;
        let code = mine_state::at(grid, view.x + col, view.y + row);
        blit(frame, col, row, tiles.of(code));
    }
}

// One who stands at (x, y), if that is inside the window.
fn draw_at(frame: &mut [u8], view: View, x: usize, y: usize, pat: [u8; 8])
    requires { Framed frame.old }
    ensures { frame.new ≡ inked frame.old (window view.x view.y (sprite_lit x y pat)) }
{
    if view.shows(x, y) {
        blit(frame, x - view.x, y - view.y, columns(pat));
    }
}

fn draw_enemies(frame: &mut [u8], view: View, enemies: &[Enemy])
    requires { Framed frame.old }
    ensures { frame.new ≡ inked frame.old (window view.x view.y (enemies_lit enemies.now)) }
{
    for e in enemies {
        draw_at(frame, view, e.x, e.y, ENEMY_PAT);
    }
}

// The tiles, then the creatures inside the window, then the player.
pub fn render(m: Mine, frame: &mut [u8])
    requires { Drawable m frame.old }
    ensures { frame.new ≡ pack (mine_lit m) }
{
    clear(frame);
    let view = View::around(m.px, m.py);
    draw_tiles(frame, view, &m.grid, m.needed <= m.coins);
    draw_enemies(frame, view, &m.enemies[..m.count]);
    draw_at(frame, view, m.px, m.py, PLAYER_PAT);
}
