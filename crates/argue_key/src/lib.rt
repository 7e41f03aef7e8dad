// The argument of a nest's key: definitions in specs/, that it holds in proofs/; no code.
#![tactic(auto)]
