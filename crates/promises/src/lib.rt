// What the planner's calls promise: the demands and the change requests, stated in specs/ of what the calls return and proved in proofs/. It has no code.
#![tactic(auto)]
