// The rules that bench/ measures, under plain names: without the check, and the check by itself. Some have a `requires`, so no host links them.
#![tactic(auto)]

mod cuts;
mod mines;
