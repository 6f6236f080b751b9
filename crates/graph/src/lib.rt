// Theorems only: graphs of nodes, the forests that describe them, and what building a forest does.
#![tactic(auto)]
