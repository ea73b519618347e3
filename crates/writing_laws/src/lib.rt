// Laws of writing: what is written is the record that is given, and reads as given. There is no code here: see specs/ and proofs/.
#![tactic(auto)]
