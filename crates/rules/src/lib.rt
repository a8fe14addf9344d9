// Rules of estimates and what holds of them: definitions in specs/, laws in proofs/. There is no code.

#![tactic(auto)]
