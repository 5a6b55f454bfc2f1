// Demand 3: resumes and the plain chip. Definitions and proofs only.
#![tactic(auto)]
