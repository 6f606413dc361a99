//! The past that a dispatcher stands for, as a value of no size that only proofs read.
#![tactic(auto)]

mod history;

pub use history::{History, Note};
