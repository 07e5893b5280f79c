// A program's line as bytes: numbers with one space between, or a refusal.
#![tactic(auto)]

ghost use Rattle.std.specs.Prelude.{◌+◌, ◌≤◌, ◌≡◌, length};
ghost use Rattle.text.specs.Text.{DIGITS, LINE, PLACED, decimal, numbers_line, place_line, refused_line, line_of};
ghost use Rattle.text.specs.CodePuts.{Puts};

use refusal::Refusal;

// The numbers of a line.
pub const NUMBERS: usize = 7;

// The most digits of a number.
pub const DIGITS: usize = 20;

// The most bytes of a line: its numbers with a byte behind each.
pub const LINE: usize = NUMBERS * (DIGITS + 1);

// The refusals from this number on have a place.
const CAUSES: u8 = 31;

// What a program says to a byte.
#[derive(Clone, Copy)]
pub enum Says {
    Nothing,
    Numbers,
    Refused(Refusal),
}

// Puts bytes at `at`, and answers where they end.
pub fn put(bytes: &[u8], out: &mut [u8], at: usize) -> usize
    requires { at + length bytes.now ≤ length out.old }
    ensures { Puts bytes.now at out.old result out.new }
{
    let end = at + bytes.len();
    out[at..end].copy_from_slice(bytes);
    end
}

pub fn put_number(n: u64, out: &mut [u8], at: usize) -> usize
    requires { at + DIGITS ≤ length out.old }
    ensures { Puts (decimal n) at out.old result out.new }
{
    let mut digits = [0u8; DIGITS];
    let k = io::decimal(n, &mut digits);
    put(&digits[..k], out, at)
}

fn put_numbers(numbers: [u64; NUMBERS], out: &mut [u8], at: usize) -> usize
    requires { at + LINE ≤ length out.old }
    ensures { Puts (numbers_line numbers) at out.old result out.new }
{
    let mut end = put_number(numbers[0], out, at);
    for n in &numbers[1..] {
        out[end] = b' ';
        end = put_number(*n, out, end + 1);
    }
    out[end] = b'\n';
    end + 1
}

// Ends a refusal's line: its place, where its number has one.
fn put_place(no: Refusal, out: &mut [u8], at: usize) -> usize
    requires { at + PLACED ≤ length out.old }
    ensures { Puts (place_line no) at out.old result out.new }
{
    if no.number() < CAUSES {
        out[at] = b'\n';
        return at + 1;
    }
    let place = put(b" at ", out, at);
    let end = put_number(no.at() as u64, out, place);
    out[end] = b'\n';
    end + 1
}

fn put_refused(no: Refusal, out: &mut [u8], at: usize) -> usize
    requires { at + LINE ≤ length out.old }
    ensures { Puts (refused_line no) at out.old result out.new }
{
    let word = put(b"refused ", out, at);
    let end = put_number(no.number() as u64, out, word);
    put_place(no, out, end)
}

// Puts what is said as a line at `at`, and answers where it ends.
pub fn put_line(says: Says, numbers: [u64; NUMBERS], out: &mut [u8], at: usize) -> usize
    requires { at + LINE ≤ length out.old }
    ensures { Puts (line_of says numbers) at out.old result out.new }
{
    match says {
        Says::Nothing => at,
        Says::Numbers => put_numbers(numbers, out, at),
        Says::Refused(no) => put_refused(no, out, at),
    }
}
