// No code: a struct in a local, lent and taken back.
#![tactic(auto)]
