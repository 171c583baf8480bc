// What engine and checker promise together, see specs/ and proofs/.
#![tactic(auto)]
