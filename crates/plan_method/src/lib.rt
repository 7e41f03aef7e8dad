// The planner's method: definitions in specs/, the theorem in proofs/; no code.
#![tactic(auto)]
