// What a run answers and what each lent buffer then holds: definitions and theorems only, see specs/ and proofs/.
#![tactic(auto)]
