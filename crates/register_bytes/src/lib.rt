// A register as the bytes of its struct: definitions and theorems.
// Nothing to run.
#![tactic(auto)]
