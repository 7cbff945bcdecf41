// Messages and headers down to their parts. It has no code: specs/ says what the parts are, from the layouts alone, and
// proofs/ that `parts` tells these, one after the other, and that they are what is read.
#![tactic(auto)]
