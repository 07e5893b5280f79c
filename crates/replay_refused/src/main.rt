// Replays a trace from standard input as `replay` does.
//
// stdin: what the oracle's `trace_oracle refused` writes, 172 corners of ill-formed states with every
// call that takes a state on each, steps by sweeps too; `trace_oracle corners-list` names them.
// stdout: what `replay_oracle` tells of it. Among them, by entry:
//     1  Mine: each cause of 1, 2, 31 to 36 and 4, with a field at a boundary
//   298  two of them at once
//   352  Cutter: the same; 940 two of them at once
//  1024  Mine: each cause in the second of three creatures, with too many, with a slot past the
//        count, and each two of them in two creatures, in either order
//  1204  the first and the third on one cell, the second with direction 4: 34 at 1
//  1267  two causes in one creature
//  1312  each cause in the last of eight
//  1411  count 9 and 255, rubbish behind: 31 at 0
//  1447  eight right ones, and needed 0: 4
//  1456  Cutter: the same from 1024 on
//  1820  places 64 and 255 across: 32
//  1960  sixteen right ones, and no level: 4
#![tactic(auto)]

fn main(rt: HostRuntime) {
    trace_reading::replay(&rt, false);
}
