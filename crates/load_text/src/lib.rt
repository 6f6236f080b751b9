// Theorems only: load reads what dump writes.
#![tactic(auto)]
