// Choices between values, and laws on tests, numbers and lists. Definitions and proofs only: there is no code here.
#![tactic(auto)]
