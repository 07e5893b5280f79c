// The pacing record: two clock marks, and which ticks a reading makes due.
#![tactic(auto)]

ghost use Rattle.std.specs.Prelude.{◌≡◌};
ghost use Rattle.pace.specs.Pace.{started, due_at, mark_after, both_ticks};

#[repr(C)]
#[derive(Clone, Copy)]
pub struct Pace {
    pub first: u32,
    pub second: u32,
}

// Which of two ticks are due, and both marks after.
#[derive(Clone, Copy)]
pub struct Ticks {
    pub one: bool,
    pub two: bool,
    pub first: u32,
    pub second: u32,
}

// The record of a first reading, which ticks nothing.
pub fn start(time: u32) -> Pace
    ensures { result ≡ started time }
{
    Pace {
        first: time,
        second: time,
    }
}

// Whether a tick is due.
pub fn due(time: u32, mark: u32, interval: u32) -> bool
    ensures { result ≡ due_at time mark interval }
{
    std::num::wrapping_sub_u32(time, mark) >= interval
}

fn mark_after(reached: bool, time: u32, mark: u32) -> u32
    ensures { result ≡ mark_after reached time mark }
{
    if reached { time } else { mark }
}

// Both ticks of a reading, each against its own mark and interval.
pub fn both_ticks(time: u32, first: u32, second: u32, interval: u32, interval2: u32) -> Ticks
    ensures { result ≡ both_ticks time first second interval interval2 }
{
    let one = due(time, first, interval);
    let two = due(time, second, interval2);
    Ticks {
        one,
        two,
        first: mark_after(one, time, first),
        second: mark_after(two, time, second),
    }
}
