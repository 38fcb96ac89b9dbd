// The parts of a signed number, in specs/, and laws of signed numbers, in proofs/; no code.
#![tactic(auto)]
