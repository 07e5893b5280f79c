// No code: what it is that a contract decides the outcome of a call.
#![tactic(auto)]
