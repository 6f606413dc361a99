//! What the words of deosk-show ask for.
//!
//! A command is a row of the table of commands (`table.rt`). Its words are read by `clap` as the row has them (`reading.rt`),
//! and mean a request (`asked.rt`); the usage line and the reason why words mean nothing come of the same rows.
#![tactic(auto)]

mod allotments;
mod arguments;
mod asked;
mod clap_commands;
mod commands;
mod forms;
mod given;
mod help;
mod numbers;
mod reading;
mod reason_texts;
mod reasons;
mod request;
mod table;
mod usage_line;

pub use allotments::Allotment;
pub use commands::{Command, Drawing, Telling};
pub use help::{help_text, versions};
pub use reason_texts::shown;
pub use reasons::{lines_law, reasons_law, wrong_words};
pub use request::{
    BudgetsForm, BudgetsRequest, ChainRequest, ChangeRequest, CheckForm, CheckRequest, Range,
    RangeRequest, ReplayRequest, Request, SlackRequest, TellRequest, WindowsForm, meaning,
};
pub use usage_line::usage;
