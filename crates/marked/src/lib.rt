// The marked examples, SCOPE 9: see specs/Marked.antt. There is no code here.
#![tactic(auto)]
