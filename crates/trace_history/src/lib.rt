// Traces as histories: nothing here is run. What holds of every trace stands in proofs/Theorems.antt.
#![tactic(auto)]
