// Theorems only: a load's states seen as nodes, for what a load did and for what it will do.
#![tactic(auto)]
