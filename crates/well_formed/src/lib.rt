// Theorems only: laws of well formed arenas, for the code and for the theory of graphs.
#![tactic(auto)]
