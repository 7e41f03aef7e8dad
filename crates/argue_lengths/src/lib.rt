// How long the argument of a key is at most, and that its text is read as it was written: no code.
#![tactic(auto)]
