// No code: the tables' words as a structured value and the model's states, in specs/.

#![tactic(auto)]
