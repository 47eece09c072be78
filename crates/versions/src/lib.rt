// A register of version 1 as version 2 has it: a definition and theorems.
// Nothing to run.
#![tactic(auto)]
