ghost use Rattle.std.specs.Prelude.{◌≡◌, ◌+◌, ◌<◌, ◌≤◌, length, true};
ghost use Rattle.std.specs.List.{list_all};
ghost use Rattle.dk_config.specs.Rules.{is_name};
ghost use Rattle.dk_outside.specs.Written.{Writes};
ghost use Rattle.dk_ledger.specs.Heading.{IsPrintable, level_body, process_body, level_lines, process_lines, header_text};

use crate::entry_text::push_counted;
use crate::{Header, ProcessLine, TextLine};
use dk_certify::TableRow;
use dk_config::MAX_LEVELS;
use dk_outside::{Sink, SinkError};

/// A level's line, without its line feed.
pub(crate) fn level_text(level: u32, row: TableRow) -> TextLine
    ensures text { result ≡ level_body level row }
    ensures len { length result < 200 }
{
    let mut text = TextLine::new();
    push_counted(&mut text, "level ", level);
    push_counted(&mut text, " period ", row.period);
    push_counted(&mut text, " demand ", row.demand);
    push_counted(&mut text, " blocking ", row.blocking);
    push_counted(&mut text, " spare ", row.spare);
    text
}

/// A process's line, without its line feed.
pub(crate) fn process_text(process: &ProcessLine) -> TextLine
    requires { is_name process.now.name ≡ true }
    ensures text { result ≡ process_body process.now }
    ensures len { length result < 200 }
{
    let mut text = TextLine::new();
    text.word("process ");
    text.word(process.name.as_str());
    push_counted(&mut text, " level ", process.level as u32);
    push_counted(&mut text, " budget ", process.budget);
    text
}

fn write_levels<S: Sink>(level: u32, rows: &[TableRow], sink: &mut S) -> Result<(), SinkError>
    requires { level + length rows.now ≤ MAX_LEVELS }
    ensures { Writes (S.seen sink.old) (S.seen sink.new) result (level_lines level rows.now) }
{
    match rows {
        [] => Ok(()),
        [row, rest @ ..] => {
            level_text(level, *row).write_to(sink)?;
            write_levels(level + 1, rest, sink)
        }
    }
}

fn write_processes<S: Sink>(processes: &[ProcessLine], sink: &mut S) -> Result<(), SinkError>
    requires { list_all (λ p. is_name p.name) processes.now ≡ true }
    ensures { Writes (S.seen sink.old) (S.seen sink.new) result (process_lines processes.now) }
{
    match processes {
        [] => Ok(()),
        [process, rest @ ..] => {
            process_text(process).write_to(sink)?;
            write_processes(rest, sink)
        }
    }
}

/// Writes a header, line by line. It needs no memory.
///
/// The header's names are names of a configuration, and it has at most 12 levels and 32 processes.
pub fn write_header<S: Sink>(header: &Header, sink: &mut S) -> Result<(), SinkError>
    requires { IsPrintable header.now }
    ensures { Writes (S.seen sink.old) (S.seen sink.new) result (header_text header.now) }
{
    write_levels(0, header.levels.as_slice(), sink)?;
    write_processes(header.processes.as_slice(), sink)
}
