// Arguments on the page of the demands: what one that holds is worth there, in proofs/; no code.
#![tactic(auto)]
