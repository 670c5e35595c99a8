// Jobs and blocks that meet every premise of the theorems on noise, with errors that are not 0: proofs/.
#![tactic(auto)]
