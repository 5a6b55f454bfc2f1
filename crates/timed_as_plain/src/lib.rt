// A timed log is a plain one with its times written as `C` lines; at a bad line it stops; frame by frame. Definitions and proofs only.
#![tactic(auto)]
