ghost use Rattle.std.specs.Prelude.{◌≡◌, ◌<◌, ◌≤◌, ◌++◌, ◌∷◌, [], length, map, All, IfOk, OnOk};
ghost use Rattle.dk_config.specs.Checked.{IsChecked, IsWithinLimits};

use crate::Name;
use dk_certify::{Table, TableRow};
use dk_config::{Config, MAX_LEVELS, MAX_NAME_BYTES, NoMemory, ProcessRow, Text};
use std::alloc::Global;
use std::marker::Model;

/// A process of a header: its budget is in ticks per window of its level.
#[derive(Drop)]
pub struct ProcessLine {
    pub name: Name,
    pub level: u8,
    pub budget: u32,
}

/// What a ledger begins with: the certified levels in order, and the processes in order. It is
/// seen as the lists of its lines.
#[derive(Drop)]
pub struct Header {
    pub levels: Vec<TableRow>,
    pub processes: Vec<ProcessLine>,
}

impl Model for Header {
    ghost use Rattle.dk_ledger.specs.Heading.{Heading};

    ghost Value = { Heading };

    ghost view = { λ h. record { levels = h.levels.items; processes = h.processes.items } };
}

impl Header {
    ghost use Rattle.dk_ledger.specs.Heading.{IsPrintable, heading_of, line_of_row, name_of};

    /// The header of the ledgers of a checked configuration with the table of its test.
    pub fn of(alloc: Global, config: &Config, table: &Table) -> Result<Header, NoMemory>
        requires checked { IsChecked config.now }
        requires limits { IsWithinLimits config.now }
        requires one_each { length table.now ≡ length config.now.levels }
        ensures heading { IfOk result (λ h. h ≡ heading_of config.now table.now) }
        ensures printable { IfOk result IsPrintable }
    {
        let levels = Self::level_rows(alloc, table, config.levels.len())?;
        let processes = Self::process_lines(alloc, config.processes.as_slice())?;
        Ok(Header { levels, processes })
    }

    /// The name on the process's line.
    pub fn name_at(&self, process: u8) -> &str
        requires printable { IsPrintable self.now }
        requires named { process < length self.now.processes }
        ensures name { result.now ≡ name_of self.now process }
        ensures short { length result.now ≤ MAX_NAME_BYTES }
    {
        self.name_of(process).as_str()
    }

    /// The same, with its block.
    #[inline(always)]
    pub(crate) fn name_of(&self, process: u8) -> &Name
        requires printable { IsPrintable self.now }
        requires named { process < length self.now.processes }
        ensures name { result.now ≡ name_of self.now process }
        ensures short { length result.now ≤ MAX_NAME_BYTES }
    {
        &self.processes.as_slice()[process as usize].name
    }

    fn level_rows(alloc: Global, table: &Table, count: usize) -> Result<Vec<TableRow>, NoMemory>
        requires all { length table.now ≡ count }
        requires few { count ≤ MAX_LEVELS }
        ensures { IfOk result (λ rows. rows.items ≡ table.now) }
    {
        let mut rows = Vec::new(alloc);
        for level in 0..count {
            rows.push(table.row(level as u8))?;
        }
        Ok(rows)
    }

    fn process_lines(alloc: Global, rows: &[ProcessRow]) -> Result<Vec<ProcessLine>, NoMemory>
        requires { All (λ row. row.level < 256) rows.now }
        ensures { IfOk result (λ lines. lines.items ≡ map line_of_row rows.now) }
    {
        let mut lines = Vec::new(alloc);
        for row in rows {
            Self::push_line(&mut lines, alloc, row)?;
        }
        Ok(lines)
    }

    fn push_line(
        lines: &mut Vec<ProcessLine>,
        alloc: Global,
        row: &ProcessRow,
    ) -> Result<(), NoMemory>
        requires { row.now.level < 256 }
        ensures { OnOk result (lines.new.items ≡ lines.old.items ++ line_of_row row.now ∷ []) }
    {
        let name = String::from_str(alloc, row.name.as_str())?;
        lines.push(ProcessLine {
            name: Name::new(Text::new(name)),
            level: row.level as u8,
            budget: row.budget,
        })?;
        Ok(())
    }
}
