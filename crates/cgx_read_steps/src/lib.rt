// One record of a file after a state, as the definitions of the walk and the judge have it: what a step comes to is in specs/, its laws are in proofs/.
#![tactic(auto)]
