//! Tests that stand at the top: those that need crates of several branches, and those with large tables.
//!
//! A crate with tests is proved twice, once with them. So the tests of a crate that takes long to prove are here, where
//! its promises alone are needed.
//!
//! - `patterns` and `states` read patterns with `helix_regex` and compare the automata that `helix_compile` makes of
//!   them with the plain matcher of `helix_expr`.
//! - `profiles` has rows that satisfy constraints and rows that don't, by `helix_profile`.
#![tactic(auto)]

#[cfg(test)]
mod patterns;
#[cfg(test)]
mod profiles;
#[cfg(test)]
mod states;
