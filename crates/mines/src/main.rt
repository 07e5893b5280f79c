// Block Mine played by bytes: L load, 5 8 7 9 move, g gravity, c creatures; newline ignored;
// others print `refused 5`. A line each: x, y, coins, needed, creatures, dead, won.
//
// stdin: `L9g` and a newline, then oracle/cases/mines_play.txt. stdout: what the oracle's
// `mines_oracle` prints for it.
#![tactic(auto)]

fn main(rt: HostRuntime) {
    lines::play_mines(&rt, false);
}
