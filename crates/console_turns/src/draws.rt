// Random bytes as draws.
ghost use Rattle.std.specs.Prelude.{◌≡◌};
ghost use Rattle.console_turns.specs.Turns.{limit_at, draws_from};

// The most draws of a call: four for each of 16 creatures.
pub const MOST_DRAWS: usize = 64;

// The columns and rows inside the ring, and the ways of a velocity's part.
const COLUMNS: u8 = 62;

const ROWS: u8 = 30;

const WAYS: u8 = 2;

// A draw is below 62, 30, 2 or 2, by its place.
#[tactic(auto, unfolding(crate::specs::Turns::limit_at))]
fn limit(place: usize) -> u8
    ensures { result ≡ limit_at place }
{
    match place % 4 {
        0 => COLUMNS,
        1 => ROWS,
        _ => WAYS,
    }
}

// Turns random bytes into draws in place: each byte's rest by its limit.
pub fn to_draws(bytes: &mut [u8])
    ensures { bytes.new ≡ draws_from 0 bytes.old }
{
    for (i, byte) in bytes.iter_mut().enumerate() {
        *byte %= limit(i);
    }
}
