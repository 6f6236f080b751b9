// Theorems only: inputs that go on after what is loaded, and dumps that stand one after the other.
#![tactic(auto)]
