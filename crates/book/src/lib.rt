// No code: the book of demand 3, in specs/, and the proof of its claims, in proofs/.

#![tactic(auto)]
