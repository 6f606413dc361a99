// The lines of a header, as they are read.
ghost use Rattle.std.specs.Prelude.{ℕ, ◌≡◌, ◌<◌, ◌≤◌, ◌^◌, true, false, length, Some, IfOk, OnOk};
ghost use Rattle.std.specs.Bool.{Decides};
ghost use Rattle.std.specs.Str.{bytes_eq};
ghost use Rattle.dk_certify.specs.declared.table.TableRow.{TableRow};
ghost use Rattle.dk_ledger.specs.declared.header.ProcessLine.{ProcessLine};
ghost use Rattle.dk_ledger.specs.Heading.{level_body, process_body, name_of};
ghost use Rattle.dk_ledger.specs.Readable.{IsProcessLine};
ghost use Rattle.dk_ledger.specs.ReadSoFar.{Item, IsKept, Takes, LevelFits, ProcessFits, keeping};
ghost use Rattle.dk_ledger.specs.Words.{texts, words_of, process_words};

use super::Reader;
use crate::header_text::{level_text, process_text};
use crate::words::{level_of, number, place_of, small_number};
use crate::{Header, Name, ProcessLine};
use dk_certify::TableRow;
use dk_config::{MAX_LEVELS, MAX_PROCESSES, NoMemory, Text, is_name};
use std::alloc::Global;

/// The line of a process, by its words. The words between name and numbers aren't looked at.
fn process_line(alloc: Global, words: &[&str]) -> Result<Option<ProcessLine>, NoMemory>
    ensures { (p : ProcessLine) → p.level < 256 → p.budget < 2 ^ 32 → texts words.now ≡ process_words p
        → IfOk result (λ found. found ≡ Some p) }
{
    match *words {
        [_, name, _, level, _, budget] => {
            let name = String::from_str(alloc, name)?;
            Ok(Some(ProcessLine {
                name: Name::new(Text::new(name)),
                level: small_number(level),
                budget: number(budget),
            }))
        }
        _ => Ok(None),
    }
}

/// Whether the line may stand in a header with these levels.
fn is_process_line(header: &Header, process: &ProcessLine) -> bool
    ensures { Decides result (IsProcessLine (length header.now.levels) process.now) }
{
    let _ticks = process.budget;
    (process.level as usize) < header.levels.len() && is_name(process.name.as_str().as_bytes())
}

/// Whether no process of the header has the name.
fn is_new(header: &Header, name: &str) -> bool
    ensures { Decides result ((q : ℕ) → q < length header.now.processes
        → bytes_eq (name_of header.now q) name.now ≡ false) }
{
    place_of(header.processes.as_slice(), name).is_none()
}

impl Reader {
    pub(super) fn take_level(&mut self, line: &[u8], words: &[&str]) -> Result<bool, NoMemory>
        requires few { length self.old.heading.levels ≤ MAX_LEVELS }
        requires words { texts words.now ≡ words_of line.now }
        ensures taken { IfOk result (λ taken. taken ≡ true → (i : Item) × Takes self.old line.now self.new i) }
        ensures refused { IfOk result (λ taken. taken ≡ false → (row : TableRow) → LevelFits self.old row
            → line.now ≡ level_body (length self.old.heading.levels) row → ⊥) }
    {
        let Some(row) = level_of(words) else {
            return Ok(false);
        };
        if !self.is_next_level(row, line) {
            return Ok(false);
        }
        self.add_level(row)?;
        Ok(true)
    }

    fn add_level(&mut self, row: TableRow) -> Result<(), NoMemory>
        ensures { OnOk result (self.new ≡ keeping self.old (Item.Level row)) }
    {
        self.header.levels.push(row)?;
        Ok(())
    }

    /// Whether the level's line is this one, and may come next.
    fn is_next_level(&self, row: TableRow, line: &[u8]) -> bool
        requires { length self.now.heading.levels ≤ MAX_LEVELS }
        ensures { Decides result (LevelFits self.now row
            × (line.now ≡ level_body (length self.now.heading.levels) row)) }
    {
        self.fits_level(row) && level_text(self.header.levels.len() as u32, row).is(line)
    }

    /// Whether the level's line may come next.
    fn fits_level(&self, row: TableRow) -> bool
        ensures { Decides result (LevelFits self.now row) }
    {
        let _numbers = row;
        self.header.processes.is_empty() && self.header.levels.len() < MAX_LEVELS
    }

    pub(super) fn take_process(
        &mut self,
        alloc: Global,
        line: &[u8],
        words: &[&str],
    ) -> Result<bool, NoMemory>
        requires part { IsKept self.old }
        requires words { texts words.now ≡ words_of line.now }
        ensures taken { IfOk result (λ taken. taken ≡ true → (i : Item) × Takes self.old line.now self.new i) }
        ensures refused { IfOk result (λ taken. taken ≡ false → (p : ProcessLine) → ProcessFits self.old p
            → line.now ≡ process_body p → ⊥) }
    {
        let Some(process) = process_line(alloc, words)? else {
            return Ok(false);
        };
        if !self.is_next_process(&process, line) {
            return Ok(false);
        }
        self.add_process(process)?;
        Ok(true)
    }

    fn add_process(&mut self, process: ProcessLine) -> Result<(), NoMemory>
        ensures { OnOk result (self.new ≡ keeping self.old (Item.Process process)) }
    {
        self.header.processes.push(process)?;
        Ok(())
    }

    /// Whether the process's line is this one, and may come next.
    fn is_next_process(&self, process: &ProcessLine, line: &[u8]) -> bool
        ensures { Decides result (ProcessFits self.now process.now × (line.now ≡ process_body process.now)) }
    {
        self.fits_process(process) && process_text(process).is(line)
    }

    /// Whether the process's line may come next.
    fn fits_process(&self, process: &ProcessLine) -> bool
        ensures { Decides result (ProcessFits self.now process.now) }
    {
        self.awaits_process()
            && is_process_line(&self.header, process)
            && is_new(&self.header, process.name.as_str())
    }

    fn awaits_process(&self) -> bool
        ensures { Decides result ((self.now.ticks ≡ 0) × (self.now.ended ≡ false)
            × (1 ≤ length self.now.heading.levels) × (length self.now.heading.processes < MAX_PROCESSES)) }
    {
        self.ticks == 0
            && !self.is_ended
            && !self.header.levels.is_empty()
            && self.header.processes.len() < MAX_PROCESSES
    }
}
