//! Tests of what no command of the programs shows: files and outputs in memory and those that fail, ledgers as lists, and
//! a caller of the kernel.
//!
//! A crate with tests is proved twice, so these stand apart from the crates that they test.
#![tactic(auto)]

#[cfg(test)]
mod audits;
#[cfg(test)]
mod depots;
#[cfg(test)]
mod given;
#[cfg(test)]
mod kernel;
#[cfg(test)]
mod ledgers_read;
#[cfg(test)]
mod pieces;
#[cfg(test)]
mod session;
