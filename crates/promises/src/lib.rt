// The promises: the three demands as theorems.
#![tactic(auto)]
