// The accuracy rule of lookups: its two sides stand in specs/, and the theorems in proofs/.
#![tactic(auto)]
