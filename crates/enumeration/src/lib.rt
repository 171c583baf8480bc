// Definitions and theorems alone: the search that goes on after each proof (request W-202).
#![tactic(auto)]
