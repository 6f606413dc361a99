//! A mark for each tick that is the last of a thread's budget in a window that it overran.
ghost use Rattle.std.specs.Prelude.{ℕ, ◌≡◌, ◌==◌, ◌||◌, ◌+◌, ◌<◌, ◌^◌, IfOk, OnOk};
ghost use Rattle.dk_overrun_spans.specs.Marks.{AreMarks, is_marked};

use crate::overrun::Overrun;
use crate::reading::read_overruns;
use dk_config::NoMemory;
use std::alloc::Global;
use std::marker::Model;

/// The marks of a ledger, seen as one for each tick up to the last that has one.
#[derive(Drop)]
pub struct Marks {
    marks: Vec<bool>,
}

impl Model for Marks {
    ghost use Rattle.std.specs.Prelude.{Bool, List};

    ghost Value = { List Bool };

    ghost view = { λ m. m.marks.items };
}

impl Marks {
    ghost use Rattle.std.specs.Prelude.{List};
    ghost use Rattle.dk_ledger.specs.Readable.{Journal, IsReadable, text_of};
    ghost use Rattle.dk_overrun_spans.specs.declared.overrun.Overrun.{Overrun as Span};
    ghost use Rattle.dk_overrun_spans.specs.Marks.{overran_in};
    ghost use Rattle.dk_overrun_spans.specs.Overruns.{overruns};

    /// Those of the ledger in these bytes.
    pub fn of(alloc: Global, bytes: &[u8]) -> Result<Marks, NoMemory>
        requires { (j : Journal) × IsReadable j × (text_of j ≡ bytes.now) }
        ensures { IfOk result (λ marks. (j : Journal) → IsReadable j → text_of j ≡ bytes.now
            → AreMarks (overruns j.heading j.entries) marks) }
    {
        let overruns = read_overruns(alloc, bytes)?;
        Ok(Marks {
            marks: marked(alloc, overruns.as_slice())?,
        })
    }

    /// How many of so many ticks from tick `start` on have one.
    pub fn within(&self, start: u32, count: u32) -> u32
        requires { start + count < 2 ^ 32 }
        ensures { (os : List Span) → AreMarks os self.now → result ≡ overran_in os start count }
    {
        let mut found = 0;
        for tick in start..start + count {
            if is_marked(self.marks.as_slice(), tick) {
                found += 1;
            }
        }
        found
    }
}

fn is_marked(marks: &[bool], tick: u32) -> bool
    ensures { result ≡ is_marked marks.now tick }
{
    match marks.get(tick as usize) {
        Some(mark) => *mark,
        None => false,
    }
}

fn mark(marks: &mut Vec<bool>, tick: u32) -> Result<(), NoMemory>
    ensures { OnOk result ((t : ℕ) → is_marked marks.new.items t ≡ ((tick == t) || is_marked marks.old.items t)) }
{
    while marks.len() <= tick as usize {
        marks.push(false)?;
    }
    marks[tick as usize] = true;
    Ok(())
}

fn marked(alloc: Global, overruns: &[Overrun]) -> Result<Vec<bool>, NoMemory>
    ensures { IfOk result (λ v. AreMarks overruns.now v.items) }
{
    let mut marks = Vec::new(alloc);
    for overrun in overruns {
        mark(&mut marks, overrun.last)?;
    }
    Ok(marks)
}
