// The fixed examples of 01 as one proved table.
// Nothing to run.
#![tactic(auto)]
