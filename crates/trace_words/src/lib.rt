// Numbers, signed bytes and runs of bytes, as they stand in a trace.
#![tactic(auto)]

ghost use Rattle.std.specs.Prelude.{◌+◌, ◌≤◌, ◌≡◌, length};
ghost use Rattle.trace_words.specs.Numbers.{bytes_in, pair_in, signed_of, byte_of, cells_at, InWord, Word};
ghost use Rattle.trace_words.specs.CodeLays.{Lays};

// The width of a place or a count, and of a number of 32 bits.
pub const PLACE: usize = 8;

pub const MARK: usize = 4;

// The values of a byte.
const BASE: u64 = 256;

// The number in k bytes from `at` on.
pub fn word(bytes: &[u8], at: usize, k: usize) -> u64
    requires { InWord bytes.now at k }
    ensures { Word k at bytes.now result }
{
    let mut n: u64 = 0;
    for i in (at..at + k).rev() {
        n = n * BASE + u64::from(bytes[i]);
    }
    n
}

// Puts the k low bytes of a number at `at`.
pub fn put_word(n: u64, k: usize, out: &mut [u8], at: usize)
    requires { at + k ≤ length out.old }
    ensures { Lays (bytes_in k n) k at out.old out.new }
{
    let mut rest = n;
    for byte in &mut out[at..at + k] {
        *byte = (rest % BASE) as u8;
        rest /= BASE;
    }
}

// Puts two numbers of k bytes each.
pub fn put_pair(n: u64, m: u64, k: usize, out: &mut [u8], at: usize)
    requires { at + (k + k) ≤ length out.old }
    ensures { Lays (pair_in k n m) (k + k) at out.old out.new }
{
    put_word(n, k, out, at);
    put_word(m, k, out, at + k);
}

// A signed byte is its two's complement.
pub fn signed_of(b: u8) -> i8
    ensures { result ≡ signed_of b }
{
    b.cast_signed()
}

pub fn byte_of(v: i8) -> u8
    ensures { result ≡ byte_of v }
{
    v.cast_unsigned()
}

// Fills cells with the bytes from `at` on.
pub fn fill(bytes: &[u8], at: usize, cells: &mut [u8])
    requires { at + length cells.old ≤ length bytes.now }
    ensures { cells.new ≡ cells_at (length cells.old) at bytes.now }
{
    cells.copy_from_slice(&bytes[at..at + cells.len()]);
}

// Puts cells at `at`.
pub fn put_cells(cells: &[u8], out: &mut [u8], at: usize)
    requires { at + length cells.now ≤ length out.old }
    ensures { Lays cells.now (length cells.now) at out.old out.new }
{
    out[at..at + cells.len()].copy_from_slice(cells);
}
