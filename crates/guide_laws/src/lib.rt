// Laws of the calls for C: every number of a section that was accepted is told as it is. There is no code here: see specs/ and proofs/.
#![tactic(auto)]
