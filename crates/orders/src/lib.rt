// What happens to a ledger, and in which orders it may happen. It has no code: specs/ says what an event comes to on
// the plain view of a ledger and which two events may change places, and proofs/ that a ledger follows its view.
#![tactic(auto)]
