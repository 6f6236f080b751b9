// Theorems only: what an accepted dump writes, and when two dumps write the same bytes.
#![tactic(auto)]
