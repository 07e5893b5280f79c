// Block Cutter: which pixel of the picture is lit. Definitions; no code.
#![tactic(auto)]
