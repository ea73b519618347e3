// The choices and the loops over numbers in which all rules are written. It is definitions (specs/) and
// laws (proofs/) only: nothing of it runs.
#![tactic(auto)]
