// The chip's core and its lent buffers as voices with their own parts. Definitions and proofs only.
#![tactic(auto)]
