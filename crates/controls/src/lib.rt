// Directions and keys, as both games take them.
#![tactic(auto)]

ghost use Rattle.std.specs.Prelude.{◌≡◌};
ghost use Rattle.controls.specs.Keys.{dir_of};

pub const UP: u8 = 0;

pub const RIGHT: u8 = 1;

pub const DOWN: u8 = 2;

pub const LEFT: u8 = 3;

pub const KEY_UP: u8 = 5;

pub const KEY_DOWN: u8 = 8;

pub const KEY_LEFT: u8 = 7;

pub const KEY_RIGHT: u8 = 9;

pub const KEY_QUIT: u8 = 10;

// The direction of a key, where it gives one.
pub fn dir_of(key: u8) -> Option<u8>
    ensures { result ≡ dir_of key }
{
    match key {
        KEY_UP => Some(UP),
        KEY_DOWN => Some(DOWN),
        KEY_LEFT => Some(LEFT),
        KEY_RIGHT => Some(RIGHT),
        _ => None,
    }
}
