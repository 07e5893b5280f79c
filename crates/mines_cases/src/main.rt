// What `mines` does with many scripts, each from the start, parted by `|`.
//
// stdin: oracle/cases/mines.txt. stdout: what the oracle's `mines_oracle --cases` prints for it.
#![tactic(auto)]

fn main(rt: HostRuntime) {
    lines::play_mines(&rt, true);
}
