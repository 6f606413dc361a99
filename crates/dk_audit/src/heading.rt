//! Whether a header is that of a configuration.
ghost use Rattle.std.specs.Prelude.{◌≡◌, ◌↔◌, ◌≤◌, IsTrue, length, map};
ghost use Rattle.dk_config.specs.Checked.{IsAccepted, IsChecked, IsWithinLimits};
ghost use Rattle.dk_ledger.specs.Heading.{line_of_row};
ghost use Rattle.dk_audit.specs.Findings.{IsOwnHeading};

use dk_certify::{Table, TableRow, Verdict, certify};
use dk_config::{Config, MAX_LEVELS, ProcessRow};
use dk_ledger::{Header, ProcessLine};

/// Whether the header is that of the configuration. Needs no memory.
pub fn is_own_heading(config: &Config, header: &Header) -> bool
    requires checked { IsChecked config.now }
    requires limits { IsWithinLimits config.now }
    requires accepted { IsAccepted config.now }
    ensures { IsTrue result ↔ IsOwnHeading config.now header.now }
{
    match certify(config) {
        Verdict::Accepted(table) => {
            are_rows_of(header.levels.as_slice(), &table, config.levels.len())
                && are_lines_of(header.processes.as_slice(), config.processes.as_slice())
        }
        Verdict::Fails { .. } => unreachable!(),
    }
}

fn is_same_row(a: &TableRow, b: &TableRow) -> bool
    ensures { IsTrue result ↔ (a.now ≡ b.now) }
{
    a == b
}

/// Whether the rows are those of the table, which has so many.
fn are_rows_of(rows: &[TableRow], table: &Table, count: usize) -> bool
    requires all { length table.now ≡ count }
    requires few { count ≤ MAX_LEVELS }
    ensures { IsTrue result ↔ (rows.now ≡ table.now) }
{
    if rows.len() != count {
        return false;
    }
    for (level, row) in rows.iter().enumerate() {
        if !is_same_row(row, &table.row(level as u8)) {
            return false;
        }
    }
    true
}

/// Whether the lines are those of the processes.
fn are_lines_of(lines: &[ProcessLine], processes: &[ProcessRow]) -> bool
    ensures { IsTrue result ↔ (lines.now ≡ map line_of_row processes.now) }
{
    if lines.len() != processes.len() {
        return false;
    }
    for (index, line) in lines.iter().enumerate() {
        if !is_line_of(line, &processes[index]) {
            return false;
        }
    }
    true
}

fn is_line_of(line: &ProcessLine, row: &ProcessRow) -> bool
    ensures { IsTrue result ↔ (line.now ≡ line_of_row row.now) }
{
    line.name.as_str() == row.name.as_str()
        && line.level as u32 == row.level
        && line.budget == row.budget
}
