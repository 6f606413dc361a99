//! What the program tells of itself. No file is read for it.
ghost use Rattle.std.specs.Prelude.{◌≡◌, IfOk, IfErr, ◌≢◌};
ghost use Rattle.dk_show_request.specs.Help.{help_text};
ghost use Rattle.dk_show_request.specs.declared.table.TheConstants.{VERSIONS};
ghost use Rattle.dk_show.specs.Output.{IsTold};
ghost use Rattle.dk_show.specs.Works.{ComesTo, IsMade, IsWhole};

use crate::work::Work;
use crate::{Refusal, Status};
use dk_config::Text;
use dk_show_request::{help_text, versions};
use std::alloc::Global;

/// What the commands are for, or the one of this name.
pub(crate) fn help_work(alloc: Global, command: &Option<Text>) -> Result<Work, Refusal>
    ensures comes { ComesTo (IsTold (help_text command.now)) result }
    ensures made { IsMade IsWhole result }
{
    match help_text(alloc, command) {
        Ok(text) => Ok(Work::Bytes(text.into_bytes(), Status::Done)),
        Err(_) => Err(Refusal::NoMemory),
    }
}

/// Which documents the program reads.
pub(crate) fn version_work(alloc: Global) -> Result<Work, Refusal>
    ensures comes { ComesTo (IsTold VERSIONS.now) result }
    ensures made { IsMade IsWhole result }
{
    match String::from_str(alloc, versions()) {
        Ok(text) => Ok(Work::Bytes(text.into_bytes(), Status::Done)),
        Err(_) => Err(Refusal::NoMemory),
    }
}
