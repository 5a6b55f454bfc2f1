// A log cut between two of its lines: the second half, played from a saved state, prints what it prints in the whole. Definitions and
// proofs only.
#![tactic(auto)]
