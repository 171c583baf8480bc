// The table that is being made decodes to what the lines so far have made: see specs/ and proofs/.
#![tactic(auto)]
