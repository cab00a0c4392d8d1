// No code: what a domain's word and its freeze do; definitions in specs/, proofs in proofs/.

#![tactic(auto)]
