// No function: that each probability of a transition is at least 0.04 before clamping stands in specs.

#![tactic(auto)]
