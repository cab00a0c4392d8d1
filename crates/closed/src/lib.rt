// No code: what an accepted revoke of a Management capability ends; definitions and the statement in specs/, its proof in proofs/.

#![tactic(auto)]
