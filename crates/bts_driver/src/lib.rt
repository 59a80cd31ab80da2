//! Work done one unit after the other, over any station.
#![tactic(auto)]

mod driver;

pub use driver::{Stop, drain};
