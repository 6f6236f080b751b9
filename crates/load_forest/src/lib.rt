// Theorems only: what an accepted load did, as a forest that was built, and what it leaves.
#![tactic(auto)]
