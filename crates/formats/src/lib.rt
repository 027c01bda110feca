// The meaning of a code: what it is accepted as, and what it shows. The definitions stand in specs/, their laws in proofs/.
#![tactic(auto)]
