// What any grants and withdrawals come to: the history theorem, and the order of withdrawals.
// Nothing to run.
#![tactic(auto)]
