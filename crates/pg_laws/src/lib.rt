//! Laws of configurations, of pictures and of grids, and worked examples. The functions do nothing,
//! except for those of `settings` that call the setters that they are about: their contracts are the laws.
#![tactic(auto)]

pub mod examples;
pub mod laws;
pub mod settings;
