// No code: theorems about the definitions of crate model, in specs/.

#![tactic(auto)]
