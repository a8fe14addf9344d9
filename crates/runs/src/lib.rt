// Runs of a reader, call by call, and the law that they obey: definitions in specs/, laws in proofs/. There is no code.

#![tactic(auto)]
