// Laws of the calls on lent memory: what they leave means what the shelf's own calls leave. There is no code here.
#![tactic(auto)]
