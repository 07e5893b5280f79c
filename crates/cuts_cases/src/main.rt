// What `cuts` does with many scripts, each from the start, parted by `|`.
//
// stdin: oracle/cases/cuts.txt. stdout: what the oracle's `cuts_oracle --cases` prints for it.
#![tactic(auto)]

fn main(rt: HostRuntime) {
    lines::play_cuts(&rt, true);
}
