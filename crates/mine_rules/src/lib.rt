// Block Mine's rules, as definitions (specs/) and their cases and laws (proofs/). No code.
#![tactic(auto)]
