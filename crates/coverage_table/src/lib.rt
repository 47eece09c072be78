// The plain gate: a table filled claim by claim, and that it answers as the gate does.
// Nothing to run.
#![tactic(auto)]
