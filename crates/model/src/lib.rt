// No code: the definitions that contracts cite are in specs/.

#![tactic(auto)]
