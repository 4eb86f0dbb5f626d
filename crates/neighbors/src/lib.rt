// Distinct medians (places), their links, the table of weights and the nodes.
#![tactic(auto)]

pub mod nodes;
pub mod places;
pub mod weights;
