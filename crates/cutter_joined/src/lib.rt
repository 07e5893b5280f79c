// Regions of black cells, defined without a search (specs/), and the one right labelling of a grid (proofs/). No code.
#![tactic(auto)]
