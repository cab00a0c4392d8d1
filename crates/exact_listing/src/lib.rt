// The lines of the tables are the model's: mathematics only.

#![tactic(auto)]
