// Laws of the calls over sections: what is accepted, and what is answered, by a section's record. There is no code here: see specs/
// and proofs/.
#![tactic(auto)]
