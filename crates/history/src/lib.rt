// Histories of a ledger: nothing here is run. What holds of every history stands in proofs/Theorems.antt.
#![tactic(auto)]
