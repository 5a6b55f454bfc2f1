// Demand 3: the chip stopped anywhere and resumed from its session text. Definitions and proofs only.
#![tactic(auto)]
