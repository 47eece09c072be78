// When a register is sound, rule by rule: definitions and theorems.
// Nothing to run.
#![tactic(auto)]
