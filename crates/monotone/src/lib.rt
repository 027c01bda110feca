// More fish never looks like fewer: the figures read off two texts are in the order of their numbers. Definitions stand in specs/, laws in proofs/.
#![tactic(auto)]
