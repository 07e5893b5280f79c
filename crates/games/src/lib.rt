// What the customer asks of both games, stated in specs/ over the promises of their public calls, and proved. No code.
#![tactic(auto)]
