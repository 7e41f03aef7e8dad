// The calls of the requests on pages: definitions in specs/, that the calls keep them in proofs/; no code.
#![tactic(auto)]
