// What each rule of Block Mine keeps: well-formedness, the coins in hand plus on the map, the boulders. No code.
#![tactic(auto)]
