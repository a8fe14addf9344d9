// What the patch file and the printed lines look like, byte by byte, and the laws of both. There is no code in this crate: see specs/ and proofs/.

#![tactic(auto)]
