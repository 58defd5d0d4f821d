//! Tests of the crates that search a bay, a module for each crate: what their contracts leave open and no command shows, and worked
//! examples of it.
#![tactic(auto)]

#[cfg(test)]
mod bays;
#[cfg(test)]
mod bounds;
#[cfg(test)]
mod compare;
#[cfg(test)]
mod gather;
#[cfg(test)]
mod incumbent;
#[cfg(test)]
mod plan;
#[cfg(test)]
mod pool;
#[cfg(test)]
mod solve;
#[cfg(test)]
mod steps;
