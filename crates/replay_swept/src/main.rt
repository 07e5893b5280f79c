// Replays a trace from standard input as `replay` does.
//
// stdin: what the oracle's `trace_oracle swept` writes: each step of the corners that changes the
// state, from the same state, by sweeps; then, on both sides of every boundary of every field of a
// Cutter state, a step by sweeps. stdout: what `replay_oracle` tells of it.
#![tactic(auto)]

fn main(rt: HostRuntime) {
    trace_reading::replay(&rt, false);
}
