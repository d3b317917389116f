// Document 01's example board, with its headers and digests: the claim stands in specs/Board.antt, its proof in proofs/. No code.
#![tactic(auto)]
