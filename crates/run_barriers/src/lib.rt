// Barrier calls in a run: definitions in specs/, that the key has the fewest in proofs/. The code is crate `run_count`.
#![tactic(auto)]
