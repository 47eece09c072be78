// What the gate and the plan answer: definitions and theorems.
// Nothing to run.
#![tactic(auto)]
