// The program's answer beside the desk's calls: definitions and a theorem only; the program needs no desk.
#![tactic(auto)]
