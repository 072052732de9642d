// No function: theorems about what the entries answer stand in specs.

#![tactic(auto, unfolding(floats::specs::Answers::on_outcome))]
