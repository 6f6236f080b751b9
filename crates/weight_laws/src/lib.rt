// Theorems only: doubles as near as can be, and weighings.
#![tactic(auto)]
