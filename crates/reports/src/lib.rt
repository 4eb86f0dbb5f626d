// The reports on a fitted model, and the trace view. A report takes the model by value and hands none back: the caller's stays as it is.
#![tactic(auto)]

mod labels;
pub mod medians;
mod shared;
pub mod stationary;
pub mod view;
pub mod visits;
