//! What stands in the columns of more than one report.
ghost use Rattle.std.specs.Prelude.{◌≡◌};
ghost use Rattle.dk_ledger.specs.Heading.{IsPrintable, name_of};
ghost use Rattle.show_rows.specs.Rows.{cell_text};
ghost use Rattle.show_ledger.specs.Cells.{told_if};

use dk_ledger::Header;
use show_rows::Cell;

/// The name of the process, and no text where the header has no such line.
pub(crate) fn name_at(header: &Header, process: u8) -> &str
    requires { IsPrintable header.now }
    ensures { result.now ≡ name_of header.now process }
{
    if (process as usize) < header.processes.len() {
        header.name_at(process)
    } else {
        ""
    }
}

/// A number, where there is something that it tells of.
pub(crate) fn told_if(count: u32, number: u32) -> Cell<'static>
    ensures { cell_text result ≡ told_if count number }
{
    if count == 0 {
        Cell::Gap
    } else {
        Cell::Number(number as u64)
    }
}
