// Replays a trace from standard input as `replay` does.
//
// stdin: what the oracle's `trace_oracle closings` writes, 58 corners of closings and of walks to
// the border, each step with the same step by sweeps right behind it; `trace_oracle corners-list`
// names them. stdout: what `replay_oracle` tells of it. Among them, by entry:
//    32  a line of one cell: 1,859 cells searched, the most that a closing can
//    50  a respawn where nothing is black: 2,048 cells walked, all; 52 the same by a closing
//    59  two cells as near: left before right, right before up, up before down
//    85  49 regions, the last one uncounted
//   113  63 pockets, the large region uncounted
//   133  a walk across the ground: 2,036 cells, the most where a place is chosen
//   153  a respawn far from black: 2,026 cells walked, the most of a respawn to a place
//   161  fresh, down 31 passes: 1,830 cells searched, no walk
//   193  passes that neither step nor respawn, or are refused: zeros
//   214  refused where a closing and a walk would take cells: zeros
#![tactic(auto)]

fn main(rt: HostRuntime) {
    trace_reading::replay(&rt, false);
}
