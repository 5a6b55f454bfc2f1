// Document 01's plain chip. Definitions and proofs only.
#![tactic(auto)]
