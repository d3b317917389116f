// Demand 3, power loss loses nothing: the claim stands in specs/, its proof in proofs/. No code.
#![tactic(auto)]
