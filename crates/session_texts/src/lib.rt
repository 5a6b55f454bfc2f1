// A session's lines. Definitions and proofs only.
#![tactic(auto)]
