// The theorems on runs: demand 3 and demand 2 over the definitions. There is nothing to run here.
#![tactic(auto)]
