// The system's clock in the games' unit, and a short wait.
#![tactic(auto)]

ghost use Rattle.std.specs.Prelude.{◌≡◌};
ghost use Rattle.console_clock.specs.Cycles.{natural_of, cycles_of};

use std::thread;
use std::time::{Clock, Duration};

// The games count 80 cycles to a microsecond.
const SECOND: u64 = 80_000_000;

// A reading wraps at 2^32.
const WRAP: u64 = 4_294_967_296;

// What the system's clock says, or its start where it can't be read.
fn stamp(rt: &impl Clock) -> Duration {
    rt.monotonic().unwrap_or(Duration::ZERO)
}

// Waits for so many nanoseconds; for none where they are below 0.
pub fn nap(rt: &impl Clock, nanos: i64) {
    thread::sleep(rt, Duration::from_nanos(natural(nanos)));
}

// No wait is below 0.
fn natural(z: i64) -> u64
    ensures { result ≡ natural_of z }
{
    if z < 0 {
        return 0;
    }
    z as u64
}

// The cycles of a time.
fn cycles(sec: u64, nsec: u64) -> u32
    ensures { result ≡ cycles_of sec nsec }
{
    let whole = sec % WRAP * SECOND;
    let part = nsec / 25 * 2;
    ((whole + part) % WRAP) as u32
}

// The clock's reading.
pub fn reading(rt: &impl Clock) -> u32 {
    let t = stamp(rt);
    cycles(t.as_secs(), u64::from(t.subsec_nanos()))
}
