// The language in which every table is defined once. It is definitions (specs/) and laws (proofs/)
// only: nothing of it runs.
#![tactic(auto)]
