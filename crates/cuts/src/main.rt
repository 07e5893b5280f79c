// Block Cutter played by bytes: 5 8 7 9 direction, s step, e creatures, r respawn; newline ignored;
// others print `refused 5`. A line each: x, y, black, claimed, line, creatures, dead.
//
// stdin: `8sr` and a newline, then oracle/cases/cuts_play.txt. stdout: what the oracle's
// `cuts_oracle` prints for it.
#![tactic(auto)]

fn main(rt: HostRuntime) {
    lines::play_cuts(&rt, false);
}
