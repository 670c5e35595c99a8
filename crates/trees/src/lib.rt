// The tree of CMuxes and the blind rotation over samples of any kind: what they are stands in specs/, and what they do to the noise in proofs/.
#![tactic(auto)]
