// Theorems on the run's sums where the weights are whole numbers: what is carried is what is made afresh, and numbering the groups anew
// changes nothing. There is no code here.
#![tactic(auto)]
