// Standard input and output. What fails is told on standard error, and the caller goes on: the
// programs end with status 0.
#![tactic(auto)]

mod telling;

ghost use Rattle.io.specs.Counts.{IsPrefixLen};

use std::io::{Error, Read};
use telling::tell;

// Whether a read failed, by what it answered; tells it.
pub fn read_failed(rt: &impl Eprint, got: &Result<usize, Error>) -> bool {
    if let Err(e) = got {
        tell(rt, "standard input", e);
        return true;
    }
    false
}

// One read: how many bytes came, 0 where the input has ended or the read failed.
pub fn read(rt: &(impl Input + Eprint), buf: &mut [u8]) -> usize
    ensures { IsPrefixLen result buf.new }
{
    let mut reader = rt.reader();
    match reader.read(buf) {
        Ok(n) => n,
        Err(e) => {
            tell(rt, "standard input", &e);
            0
        }
    }
}

// Reads until buf is full, the input ends or a read fails.
pub fn read_full(rt: &(impl Input + Eprint), buf: &mut [u8]) -> usize
    ensures { IsPrefixLen result buf.new }
{
    let mut done: usize = 0;
    while done < buf.len() {
        let more = read(rt, &mut buf[done..]);
        if more == 0 {
            return done;
        }
        done += more;
    }
    done
}

// Writes all of bytes; false where that failed.
pub fn write(rt: &(impl Print + Eprint), bytes: &[u8]) -> bool {
    match rt.write_all(bytes) {
        Ok(()) => true,
        Err(e) => {
            tell(rt, "standard output", &e);
            false
        }
    }
}

// Writes a number; false where that failed.
pub fn write_number(rt: &(impl Print + Eprint), n: u64) -> bool {
    let mut digits = [0u8; 20];
    let k = io::decimal(n, &mut digits);
    write(rt, &digits[..k])
}
