// No correct placement has fewer barrier calls than the key (001, lemma 2): proofs over the planner's theory; no code.
#![tactic(auto)]
