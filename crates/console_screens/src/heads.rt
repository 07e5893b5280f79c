// The line above the frame, as bytes.
ghost use Rattle.std.specs.Prelude.{◌≡◌, ◌+◌, ◌≤◌, length};
ghost use Rattle.text.specs.CodePuts.{Puts};
ghost use Rattle.text.specs.Text.{DIGITS};
ghost use Rattle.console_screens.specs.Heads.{HEAD, STATE, state_bytes, FieldPut, mine_head, cutter_head};

use text::{put, put_number};

// The room of a head line.
pub const HEAD: usize = 256;

// How the round stands, and what the keys do.
fn put_state(stands: u8, out: &mut [u8], at: usize) -> usize
    requires { at + STATE ≤ length out.old }
    ensures { Puts (state_bytes stands) at out.old result out.new }
{
    match stands {
        console_turns::GOING_ON => put(b"   5 8 7 9 or the arrows move, q quits", out, at),
        console_turns::WON => put(b"   won: n plays another round, q quits", out, at),
        console_turns::DEAD => put(b"   dead: n plays another round, q quits", out, at),
        console_turns::OVER => put(b"   over: n plays another round, q quits", out, at),
        console_turns::QUIT => put(b"   quit", out, at),
        _ => put(b"   refused: n plays another round, q quits", out, at),
    }
}

// A word, and a number.
fn put_field(word: &[u8], n: u64, out: &mut [u8], at: usize) -> usize
    requires { at + length word.now + DIGITS ≤ length out.old }
    ensures { FieldPut word.now n at out.old result out.new }
{
    let end = put(word, out, at);
    put_number(n, out, end)
}

// Block Mine: coins of needed.
pub fn mine_head(coins: u32, needed: u32, stands: u8, out: &mut [u8]) -> usize
    requires { length out.old ≡ HEAD }
    ensures { Puts (mine_head coins needed stands) 0 out.old result out.new }
{
    let a = put_field(b"Block Mine   coins ", coins as u64, out, 0);
    let b = put_field(b" of ", needed as u64, out, a);
    put_state(stands, out, b)
}

// Block Cutter: level, lives and share.
pub fn cutter_head(level: u32, lives: u32, share: u16, stands: u8, out: &mut [u8]) -> usize
    requires { length out.old ≡ HEAD }
    ensures { Puts (cutter_head level lives share stands) 0 out.old result out.new }
{
    let a = put_field(b"Block Cutter   level ", level as u64, out, 0);
    let b = put_field(b"   lives ", lives as u64, out, a);
    let c = put_field(b"   share ", share as u64, out, b);
    let d = put(b" %", out, c);
    put_state(stands, out, d)
}
