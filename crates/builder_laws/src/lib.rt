// Theorems only: what an accepted call of the builder leaves.
#![tactic(auto)]
