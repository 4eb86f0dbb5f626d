// The settings of a fit, the refusals, and the check of the settings (docs/RULES.md, "When no labels are given", 1 to 6, 23, 24).
#![tactic(auto)]

pub mod config;
pub mod refusal;
