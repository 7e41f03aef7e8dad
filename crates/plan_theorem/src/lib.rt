// The key of a nest is a matter of definitions and proofs: no code.
#![tactic(auto)]
