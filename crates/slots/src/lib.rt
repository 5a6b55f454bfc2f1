// The chip's voices, each with its own parts of the tables and of the queue buffer, and the plain voices that they are. Definitions and proofs only.
#![tactic(auto)]
