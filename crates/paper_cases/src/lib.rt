// Document 01's starred bench cases: one list under one claim in specs/Cases.antt, proved in proofs/. No code.
#![tactic(auto)]
