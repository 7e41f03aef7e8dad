// The order of placements: definitions and laws only; crate paper_weigh has the code that follows it.
#![tactic(auto)]
