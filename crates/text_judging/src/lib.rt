// The judgement of an answer text as a function: definitions, and the theorem that it is exact.
#![tactic(auto)]
