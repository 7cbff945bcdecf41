// The lines that are checked on the blackboard. It has no code: specs/ has them as one table, and proofs/ one claim
// that every line of it holds, which the checker computes.
#![tactic(auto)]
