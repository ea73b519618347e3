// The third demand: what is collected over stretches of calls. No code, only its statements and their proofs.
#![tactic(auto)]
