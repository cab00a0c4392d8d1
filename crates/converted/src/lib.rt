// No code: what the converter means for the calls before and after it, in specs/.

#![tactic(auto)]
