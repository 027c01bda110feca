// Definitions on lists and their laws: specs/ and proofs/.
#![tactic(auto)]
