// Replays a trace from standard input as `replay` does, and tells each difference.
//
// stdin: what the oracle's `trace_oracle damaged PART` writes for refusal, answer, state, record,
// result, frame, cost, place and place-high, one after the other: nine entries each, with one wrong
// byte. stdout: what `replay_oracle --each` tells of it. A wrong byte of a state or a record shows in a later entry
// too, which goes on from it.
#![tactic(auto)]

fn main(rt: HostRuntime) {
    trace_reading::replay(&rt, true);
}
