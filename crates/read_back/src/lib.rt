// What the writer wrote reads back: the claim stands in specs/, its proof in proofs/. No code.
#![tactic(auto)]
