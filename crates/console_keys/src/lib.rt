// Bytes from a terminal as the keys of a pass.
#![tactic(auto)]

ghost use Rattle.std.specs.Prelude.{◌≡◌};
ghost use Rattle.console_keys.specs.Keys.{PLAIN_KEYS, ARROWS, key_in, heard_key, waits_after, keys_of, waits_of};

use controls::{KEY_DOWN, KEY_LEFT, KEY_QUIT, KEY_RIGHT, KEY_UP};

// Beside the keys of a pass: 11 is ours, for another round, and 0 is no key: a pass ignores both.
pub const NO_KEY: u8 = 0;

pub const KEY_NEW: u8 = 11;

// What the bytes before left open: nothing, an escape, or a sequence behind one.
pub const PLAIN: u8 = 0;

const ESCAPED: u8 = 1;

const SEQUENCE: u8 = 2;

const ESCAPE: u8 = 27;

// A sequence ends with a byte from here on.
const FINAL: u8 = 64;

// What a terminal sends for the end of input.
const END: u8 = 4;

// The key of a byte by itself.
#[tactic(auto, unfolding(crate::specs::Keys::key_in))]
fn plain_key(b: u8) -> u8
    ensures { result ≡ key_in PLAIN_KEYS b }
{
    match b {
        b'5' => KEY_UP,
        b'7' => KEY_LEFT,
        b'8' => KEY_DOWN,
        b'9' => KEY_RIGHT,
        b'q' | b'x' | END => KEY_QUIT,
        b'n' => KEY_NEW,
        _ => NO_KEY,
    }
}

// The key of the byte that ends a sequence.
#[tactic(auto, unfolding(crate::specs::Keys::key_in))]
fn arrow_key(b: u8) -> u8
    ensures { result ≡ key_in ARROWS b }
{
    match b {
        b'A' => KEY_UP,
        b'B' => KEY_DOWN,
        b'C' => KEY_RIGHT,
        b'D' => KEY_LEFT,
        _ => NO_KEY,
    }
}

// The key that a byte gives, after what the bytes before left open.
#[tactic(auto, unfolding(crate::specs::Keys::heard_key))]
fn heard_key(waits: u8, b: u8) -> u8
    ensures { result ≡ heard_key waits b }
{
    match waits {
        SEQUENCE => arrow_key(b),
        _ => plain_key(b),
    }
}

// What a byte leaves open.
#[tactic(auto, unfolding(crate::specs::Keys::waits_after))]
fn waits_after(waits: u8, b: u8) -> u8
    ensures { result ≡ waits_after waits b }
{
    match (waits, b) {
        (_, ESCAPE) => ESCAPED,
        (SEQUENCE, _) if b < FINAL => SEQUENCE,
        (ESCAPED, b'[' | b'O') => SEQUENCE,
        _ => PLAIN,
    }
}

// Turns bytes into keys in place, and answers what they leave open.
pub fn hear(waits: u8, bytes: &mut [u8]) -> u8
    ensures value { result ≡ waits_of waits bytes.old }
    ensures bytes_after { bytes.new ≡ keys_of waits bytes.old }
{
    let mut open = waits;
    for byte in bytes {
        let b = *byte;
        *byte = heard_key(open, b);
        open = waits_after(open, b);
    }
    open
}
