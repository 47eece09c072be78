// A guessed number tells nothing: what an actor sees, and that the gate tells no more.
// Nothing to run.
#![tactic(auto)]
