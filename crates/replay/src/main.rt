// Replays a trace from standard input to its end: makes each call, and compares every byte of
// refusal and its place, answer, state, record and result. Tells the first difference, then `N
// calls, D differ`.
//
// stdin: what the oracle's `trace_oracle corners` writes, 245 corners of the rules with every call;
// `trace_oracle corners-list` names each, with the entry that it begins at. stdout: what
// `replay_oracle` tells of it. A step that changes nothing is made by sweeps right behind it; the
// others are in `replay_swept`. Closings and walks to the border are in `replay_closings`, ill-formed
// states in `replay_refused`. Among them, by entry:
//   249  Mine won and dead: won
//   260  keys that are ignored, on open ground
//   286  the nearest readings on each side of the intervals of gravity and creatures, from mark 0;
//        294 and 302 across the wrap, from the marks 4,294,967,000 and 4,294,967,295
//   420  along the border round one black cell, from away from black and back
//   462  a pass at black 465: not won
//   464  a pass at black 464: won
//   467  at 465 with an open line: not won
//   469  at 464 with an open line: won
//   527  a level due at 65,535: 8, before 7
//   566  the nearest readings on each side of the intervals of the step and the creatures, from
//        mark 0; 574 and 582 across the wrap
//   634  ground reports with an open line, and after it is lost or closed
//   661  frames of a wrong length: 6; 669 the same for Cutter
//   677  commands above 3: 5; 683 the same for Cutter
//   689  questions on lists of their own
//   771  Mine states with a field at a boundary, accepted; Cutter's are in `replay_swept`
#![tactic(auto)]

fn main(rt: HostRuntime) {
    trace_reading::replay(&rt, false);
}
