// A chip of two cores over a model of voices. Definitions and proofs only.
#![tactic(auto)]
