//! The program of a profile, a text or a table, as a source of the assembler, and the ticks that it takes.
#![tactic(auto)]

mod code;
mod laws;
mod page;
mod program;
mod source;

pub use laws::{
    call_law, done_law, job_law, lap_law, load_law, round_law, steps_law, table_law, wait_law,
    work_law,
};
pub use page::{Replay, make_replay};
pub use program::program_of;
pub use source::replay_source;
