// What a replay tells on standard output.
use trace_verdict::Part;

fn say(rt: &(impl Print + Eprint), text: &[u8]) {
    streams::write(rt, text);
}

fn say_number(rt: &(impl Print + Eprint), n: u64) {
    streams::write_number(rt, n);
}

fn say_at(rt: &(impl Print + Eprint), part: &[u8], byte: usize) {
    say(rt, part);
    say(rt, b" differs at byte ");
    say_number(rt, byte as u64);
}

fn say_part(rt: &(impl Print + Eprint), part: Part) {
    match part {
        Part::Same => say(rt, b"agrees"),
        Part::Unread => say(rt, b"cannot be read"),
        Part::Refusal => say(rt, b"refusal differs"),
        Part::Place => say(rt, b"place differs"),
        Part::Answer => say(rt, b"answer differs"),
        Part::State(byte) => say_at(rt, b"state", byte),
        Part::Record(byte) => say_at(rt, b"record", byte),
        Part::Result(byte) => say_at(rt, b"result", byte),
    }
}

// Tells a difference: the entry's number and offset, the call, and the part.
pub fn say_difference(rt: &(impl Print + Eprint), entry: u64, offset: u64, call: u8, part: Part) {
    say(rt, b"entry ");
    say_number(rt, entry);
    say(rt, b" at ");
    say_number(rt, offset);
    say(rt, b", call ");
    say_number(rt, call as u64);
    say(rt, b": ");
    say_part(rt, part);
    say(rt, b"\n");
}

// Tells how many calls there were, and how many differ.
pub fn say_verdict(rt: &(impl Print + Eprint), calls: u64, differ: u64) {
    say_number(rt, calls);
    say(rt, b" calls, ");
    say_number(rt, differ);
    say(rt, b" differ\n");
}

// Tells that no entry was read.
pub fn say_nothing(rt: &(impl Print + Eprint)) {
    say(rt, b"no entry: the input is empty or can't be read\n");
}
