// Goals, clauses and their members: definitions and laws only, see specs/ and proofs/.
#![tactic(auto)]
