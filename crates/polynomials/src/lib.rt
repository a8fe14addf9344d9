// Polynomials over the two values 0 and 1: the definitions in specs/, and the laws in proofs/ that the crates above cite.

#![tactic(auto)]
