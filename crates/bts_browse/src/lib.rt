//! Which rows a listing of activities asks for.
#![tactic(auto)]

mod criteria;

pub use criteria::Criteria;

#[cfg(test)]
mod tests;
