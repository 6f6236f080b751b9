// Theorems only: what a recipe costs, whatever the order of its pairs.
#![tactic(auto)]
