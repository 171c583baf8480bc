// The answer text: definitions and laws only, see specs/ and proofs/.
#![tactic(auto)]
