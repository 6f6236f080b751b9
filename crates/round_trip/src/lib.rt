// Theorems only: what is dumped, loaded and dumped again (demand 3).
#![tactic(auto)]
