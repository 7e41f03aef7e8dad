// Arguments that no correct placement is better: definitions in specs/, the theorem in proofs/; no code.
#![tactic(auto)]
