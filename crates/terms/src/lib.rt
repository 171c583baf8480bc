// First-order terms: definitions and laws only, see specs/ and proofs/.
#![tactic(auto)]
