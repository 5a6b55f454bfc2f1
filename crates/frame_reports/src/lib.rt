// What ticks and frames tell beside their samples: the values ahead of the volume, and the voices that they turned off. Definitions and proofs only.
#![tactic(auto)]
