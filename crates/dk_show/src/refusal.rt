ghost use Rattle.std.specs.Prelude.{◌≡◌, ◌++◌, IfOk, string_bytes};
ghost use Rattle.dk_show.specs.Answers.{longer_than, refusal_status, refusal_text};
ghost use Rattle.dk_show.specs.declared.refusal.Refusal.TheVariants as why;

use crate::Status;
use dk_asm::MAX_SOURCE_BYTES;
use dk_config::{ConfigFault, MAX_CONFIG_BYTES, MAX_LEDGER_BYTES, MAX_PROGRAM_BYTES, NoMemory};
use dk_fault_words::fault_text;
use dk_picture::MAX_GROUPS;
use dk_profile::MAX_PROFILE_BYTES;
use std::alloc::{AllocError, Global};

/// Why a command is refused, in the order in which the reasons are looked for.
#[derive(Clone, Copy, Debug, PartialEq, Eq)]
pub enum Refusal {
    /// A read failed.
    Depot,
    /// The configuration has more than 65,536 bytes.
    LongConfig,
    /// The source has more than 1,048,576 bytes.
    LongSource,
    /// The bytes of the configuration are no TOML document.
    NotToml,
    /// The configuration breaks this rule first.
    Rule(ConfigFault),
    /// The first level that may miss its window, with the ticks that it needs and those of its window.
    Uncertified { level: u8, needs: u64, window: u32 },
    /// A name of a chain is that of no process.
    NoProcess,
    /// The needs have more than 65,536 bytes.
    LongNeeds,
    /// The profile has more than 1,048,576 bytes.
    LongProfile,
    /// The program of the process with this number has more than 65,536 bytes.
    LongProgram(u32),
    /// The ledger is too long.
    LongLedger,
    /// The ledger's header is not that of the configuration.
    OtherLedger,
    /// The first line, counted from 1, by which a ledger is none.
    LedgerLine(u32),
    /// The range ends behind the last tick; the number is that of the ledger's ticks.
    RangeEnds(u32),
    /// The range has too many groups for a picture; one up to this tick has as many as it can have.
    TooManyGroups(u32),
    /// Want of memory.
    NoMemory,
}

impl Refusal {
    pub fn status(&self) -> Status
        ensures { result ≡ refusal_status self.now }
    {
        match self {
            Refusal::Depot => Status::DepotFault,
            Refusal::LongConfig => Status::Config,
            Refusal::LongSource => Status::Refused,
            Refusal::NotToml => Status::Config,
            Refusal::Rule(_) => Status::Config,
            Refusal::NoProcess => Status::Refused,
            Refusal::LongNeeds => Status::Config,
            Refusal::LongProfile => Status::Refused,
            Refusal::Uncertified { .. } => Status::Uncertified,
            Refusal::LongProgram(_) => Status::Refused,
            Refusal::LongLedger => Status::Refused,
            Refusal::OtherLedger => Status::Refused,
            Refusal::LedgerLine(_) => Status::Refused,
            Refusal::RangeEnds(_) => Status::Refused,
            Refusal::TooManyGroups(_) => Status::Refused,
            Refusal::NoMemory => Status::NoMemory,
        }
    }

    /// Its line, and nothing where a read failed or memory ran out.
    pub fn text(&self, alloc: Global) -> Result<String, AllocError>
        ensures { IfOk result (λ s. string_bytes s ≡ refusal_text self.now) }
    {
        match self {
            Refusal::LongConfig => too_long(alloc, "config:", MAX_CONFIG_BYTES),
            Refusal::LongSource => too_long(alloc, "asm:", MAX_SOURCE_BYTES),
            Refusal::NotToml => String::from_str(alloc, "config: not TOML\n"),
            Refusal::Rule(fault) => fault_text(alloc, *fault),
            Refusal::NoProcess => String::from_str(alloc, "chain: no such process\n"),
            Refusal::Uncertified {
                level,
                needs,
                window,
            } => uncertified_text(alloc, *level, *needs, *window),
            Refusal::LongNeeds => too_long(alloc, "needs:", MAX_CONFIG_BYTES),
            Refusal::LongProfile => too_long(alloc, "profile:", MAX_PROFILE_BYTES),
            Refusal::LongProgram(process) => long_program_text(alloc, *process),
            Refusal::LongLedger => too_long(alloc, "ledger:", MAX_LEDGER_BYTES),
            Refusal::OtherLedger => {
                String::from_str(alloc, "ledger: of another configuration\n")
            }
            Refusal::LedgerLine(line) => ledger_line_text(alloc, *line),
            Refusal::RangeEnds(ticks) => range_ends_text(alloc, *ticks),
            Refusal::TooManyGroups(tick) => too_many_text(alloc, *tick),
            Refusal::Depot => String::from_str(alloc, ""),
            Refusal::NoMemory => String::from_str(alloc, ""),
        }
    }
}

impl From<NoMemory> for Refusal {
    ghost from_gives = { λ _ e. e ≡ why.NoMemory };

    fn from(_: NoMemory) -> Self {
        Refusal::NoMemory
    }
}

fn uncertified_text(alloc: Global, level: u8, needs: u64, window: u32) -> Result<String, AllocError>
    ensures { IfOk result (λ s. string_bytes s ≡ refusal_text (Refusal.Uncertified level needs window)) }
{
    format!(in alloc; "not certified: level {level} needs {needs} of {window}\n")
}

/// The line of what has more than so many bytes.
fn too_long(alloc: Global, what: &str, most: u32) -> Result<String, AllocError>
    ensures { IfOk result (λ s. string_bytes s ≡ what.now ++ longer_than most) }
{
    format!(in alloc; "{what} longer than {most} bytes\n")
}

fn long_program_text(alloc: Global, process: u32) -> Result<String, AllocError>
    ensures { IfOk result (λ s. string_bytes s ≡ refusal_text (Refusal.LongProgram process)) }
{
    let most = MAX_PROGRAM_BYTES;
    format!(in alloc; "program: process {process} longer than {most} bytes\n")
}

fn ledger_line_text(alloc: Global, line: u32) -> Result<String, AllocError>
    ensures { IfOk result (λ s. string_bytes s ≡ refusal_text (Refusal.LedgerLine line)) }
{
    format!(in alloc; "ledger: line {line}\n")
}

fn range_ends_text(alloc: Global, ticks: u32) -> Result<String, AllocError>
    ensures { IfOk result (λ s. string_bytes s ≡ refusal_text (Refusal.RangeEnds ticks)) }
{
    format!(in alloc; "range: ledger ends at {ticks}\n")
}

fn too_many_text(alloc: Global, tick: u32) -> Result<String, AllocError>
    ensures { IfOk result (λ s. string_bytes s ≡ refusal_text (Refusal.TooManyGroups tick)) }
{
    let most = MAX_GROUPS;
    format!(in alloc; "range: more than {most} groups, TO up to {tick} fits\n")
}
