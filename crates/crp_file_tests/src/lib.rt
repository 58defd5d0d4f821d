//! Tests of the crates that read and write files, a module for each crate: what their contracts leave open, and worked examples.
#![tactic(auto)]

#[cfg(test)]
mod calls;
#[cfg(test)]
mod cert;
#[cfg(test)]
mod checker;
#[cfg(test)]
mod compare;
#[cfg(test)]
mod devices;
#[cfg(test)]
mod edi;
#[cfg(test)]
mod movins;
#[cfg(test)]
mod order;
#[cfg(test)]
mod yard;
