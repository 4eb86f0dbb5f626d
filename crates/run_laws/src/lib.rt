// Theorems on the grouping run: what holds of a grouping at rest. There is no code here.
#![tactic(auto)]
