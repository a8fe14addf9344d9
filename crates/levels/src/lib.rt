// Levels of light as floating numbers: what they are worth over whole numbers, in specs/, and that the machine's arithmetic gives it, in proofs/.

#![tactic(auto)]
