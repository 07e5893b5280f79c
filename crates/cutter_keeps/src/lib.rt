// What each rule of Block Cutter does to the accounts: well-formedness, black, claimed and line cells, creatures. No code.
#![tactic(auto)]
