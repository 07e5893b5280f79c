// Page bytes: the column of a tile, one pixel, and a cell of 2 by 2 pixels, the lowest bit topmost.
#![tactic(auto)]

ghost use Rattle.std.specs.Prelude.{◌≡◌, ◌&&◌, ◌+◌, ◌*◌, ◌<◌, ◌/◌, eqb};
ghost use Rattle.bits.specs.Bits.{number, art_bit};

// The side of a tile, and the rows of a page.
pub const TILE: usize = 8;

// Column gx of a tile as a page byte: bit gy is the bit of row gy, counted from the left.
pub fn column(pat: [u8; 8], gx: usize) -> u8
    requires { gx < 8 }
    ensures { result ≡ number 8 (art_bit pat gx) }
{
    let mut b: u8 = 0;
    for (gy, row) in pat.iter().enumerate() {
        b |= ((*row >> (TILE - 1 - gx)) & 1) << gy;
    }
    b
}

// The pixel (x0, y0) as a mask for column x of page p: one bit, or none.
pub fn dot(x0: usize, y0: usize, p: usize, x: usize) -> u8
    ensures { result ≡ number 8 (λ j. eqb x0 x && eqb y0 (p * 8 + j)) }
{
    if (x0 == x) & (y0 / TILE == p) {
        return 1 << (y0 % TILE);
    }
    0
}

// The cell (cx, cy) of 2 by 2 pixels as a mask for column x of page p: two bits, or none.
pub fn cell_mask(cx: usize, cy: usize, p: usize, x: usize) -> u8
    ensures { result ≡ number 8 (λ j. eqb cx (x / 2) && eqb cy ((p * 8 + j) / 2)) }
{
    if (cx == x / 2) & (cy / 4 == p) {
        return 3 << (2 * (cy % 4));
    }
    0
}
