//! The names of the mains without a tick.
ghost use Rattle.std.specs.Prelude.{◌≡◌, ◌≤◌, ◌++◌, IfOk, OnOk, length, string_bytes};
ghost use Rattle.dk_picture.specs.RowTexts.{quiet_name, quiet_names, quiet_text};

use crate::elements::{push_line, words_at};
use crate::frame::Frame;
use crate::lines::name_of;
use dk_ledger::Header;
use std::alloc::{AllocError, Global};

/// The name in its place, of which each line has 12.
fn quiet_name(
    alloc: Global,
    header: &Header,
    frame: Frame,
    place: u8,
    process: u8,
) -> Result<String, AllocError>
    ensures { IfOk result (λ s. string_bytes s ≡ quiet_name header.now frame place process) }
{
    let x = 8 + 120 * (place as u64 % 12);
    let y = frame.quiet_foot() + 16 * (place as u64 / 12);
    words_at(alloc, "t", x, y, name_of(header, process))
}

fn add_names(
    alloc: Global,
    text: &mut String,
    header: &Header,
    frame: Frame,
    quiet: &[u8],
) -> Result<(), AllocError>
    requires { length quiet.now ≤ 32 }
    ensures { OnOk result (string_bytes text.new
        ≡ string_bytes text.old ++ quiet_names header.now frame 1 quiet.now) }
{
    let mut place = 1;
    for process in quiet {
        let line = quiet_name(alloc, header, frame, place, *process)?;
        push_line(text, line)?;
        place += 1;
    }
    Ok(())
}

/// Adds the names behind a word, where there are any.
pub(crate) fn add_quiet(
    alloc: Global,
    text: &mut String,
    header: &Header,
    frame: Frame,
    quiet: &[u8],
) -> Result<(), AllocError>
    requires { length quiet.now ≤ 32 }
    ensures { OnOk result (string_bytes text.new
        ≡ string_bytes text.old ++ quiet_text header.now frame quiet.now) }
{
    if quiet.is_empty() {
        return Ok(());
    }
    push_line(
        text,
        words_at(alloc, "m", 8, frame.quiet_foot(), "no tick")?,
    )?;
    add_names(alloc, text, header, frame, quiet)
}
