// Laws of the shelf's calls, over what one watch keeps. There is no code here: see specs/ and proofs/.
#![tactic(auto)]
