//! Reads a configuration from TOML and the programs from their files, and writes a configuration.
//!
//! The format of a configuration is this project's own. A configuration, and each program, has at
//! most 65,536 bytes.
#![tactic(auto)]

mod all_shape;
mod build;
mod code;
mod fault;
mod keys;
mod loaded;
mod look;
mod programs;
mod reading;
mod shape;
mod writing;

pub use all_shape::shape_faults;
pub use code::Code;
pub use fault::LoadFault;
pub use loaded::Loaded;
pub use programs::load;
pub use reading::{read_config, read_shaped};
pub use writing::write_config;
