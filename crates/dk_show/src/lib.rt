//! What the program deosk-show does, over any depot and any sink.
#![tactic(auto)]

mod budgets;
mod chains;
mod checks;
mod faults;
mod files;
mod helps;
mod holds;
mod impacts;
mod loading;
mod making;
mod needed;
mod pictures;
mod reactions;
mod refusal;
mod repeats;
mod replays;
mod show;
mod slacks;
mod status;
mod telling;
mod windows;
mod work;

pub use refusal::Refusal;
pub use show::deosk_show;
pub use status::Status;
