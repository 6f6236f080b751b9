// Theorems only: laws of lists, of ranges and of the words of rows, for the crates above.
#![tactic(auto)]
