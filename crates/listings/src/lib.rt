// Messages in their order, the listing of those within a radius, and the prefixes that a call enters: definitions in specs/, laws in proofs/.
// There is no code.

#![tactic(auto)]
