//! Why a command has no output, with the line and the status of each refusal.
ghost use Rattle.std.specs.Prelude.{◌≡◌, ◌++◌, IfOk, string_bytes};
ghost use Rattle.dk_inputs.specs.Answer.{cause_word, tick_text, longer_than, refusal_text, refusal_status};
ghost use Rattle.dk_inputs.specs.declared.refusal.Refusal.TheVariants as why;

use crate::Status;
use dk_asm::{LineFault, MAX_SOURCE_BYTES};
use dk_config::{
    ConfigFault, MAX_CONFIG_BYTES, MAX_LEDGER_BYTES, MAX_PROGRAM_BYTES, NoMemory, Text,
};
use dk_fault_words::fault_text;
use std::alloc::{AllocError, Global};

/// Why a command is refused. Words that are no command come to no refusal: they get the usage line.
#[derive(Drop)]
pub enum Refusal {
    /// The configuration has more than 65,536 bytes.
    LongConfig,
    /// The bytes of the configuration are no TOML document.
    NotToml,
    /// The configuration breaks this rule first.
    Rule(ConfigFault),
    /// The first level that may miss its window, with the ticks that it needs and those of its window.
    Uncertified { level: u8, needs: u64, window: u32 },
    /// The program of the process with this name has more than 65,536 bytes.
    LongProgram(Text),
    /// The ledger has more than 1,073,741,824 bytes.
    LongLedger,
    /// This line of the ledger, counted from 1, is the first wrong one.
    LedgerLine(u32),
    /// The source has more than 1,048,576 bytes.
    LongSource,
    /// The first line of the source that is at fault, counted from 1, and its cause.
    SourceLine { number: u32, cause: LineFault },
    /// The program to be listed has more than 65,536 bytes.
    LongCode,
    /// The header of the audited ledger isn't that of the configuration.
    HeaderDiffers,
    /// The label of this tick isn't one of the choice's.
    WrongLabel(u32),
    /// The entry of this tick breaks another rule.
    WrongEvent(u32),
    /// No process has the name.
    NoProcess,
    /// A read failed.
    Depot,
    NoMemory,
}

impl Refusal {
    /// The whole output: one line, or nothing for `Depot` and `NoMemory`.
    pub fn text(&self, alloc: Global) -> Result<String, NoMemory>
        ensures { IfOk result (λ s. string_bytes s ≡ refusal_text self.now) }
    {
        Ok(text_of(alloc, self)?)
    }

    /// The status that the refusal ends with.
    pub fn status(&self) -> Status
        ensures { result ≡ refusal_status self.now }
    {
        match self {
            Refusal::LongConfig | Refusal::NotToml | Refusal::Rule(_) => Status::Config,
            Refusal::Uncertified { .. } => Status::Uncertified,
            Refusal::LongProgram(_) | Refusal::LongLedger | Refusal::LedgerLine(_) => {
                Status::Program
            }
            Refusal::LongSource | Refusal::SourceLine { .. } | Refusal::LongCode => Status::Program,
            Refusal::HeaderDiffers | Refusal::WrongLabel(_) | Refusal::WrongEvent(_) =>
                Status::Program,
            Refusal::NoProcess => Status::Program,
            Refusal::Depot => Status::DepotFault,
            Refusal::NoMemory => Status::NoMemory,
        }
    }
}

impl From<NoMemory> for Refusal {
    ghost from_gives = { λ _ e. e ≡ why.NoMemory };

    fn from(_: NoMemory) -> Self {
        Refusal::NoMemory
    }
}

impl From<AllocError> for Refusal {
    ghost from_gives = { λ _ e. e ≡ why.NoMemory };

    fn from(_: AllocError) -> Self {
        Refusal::NoMemory
    }
}

fn text_of(alloc: Global, refusal: &Refusal) -> Result<String, AllocError>
    ensures { IfOk result (λ s. string_bytes s ≡ refusal_text refusal.now) }
{
    match refusal {
        Refusal::LongConfig => too_long(alloc, "config:", MAX_CONFIG_BYTES),
        Refusal::NotToml => String::from_str(alloc, "config: not TOML\n"),
        Refusal::Rule(fault) => fault_text(alloc, *fault),
        Refusal::Uncertified {
            level,
            needs,
            window,
        } => uncertified_line(alloc, *level, *needs, *window),
        Refusal::LongProgram(name) => long_program_line(alloc, name.as_str()),
        Refusal::LongLedger => too_long(alloc, "ledger:", MAX_LEDGER_BYTES),
        Refusal::LedgerLine(line) => ledger_line(alloc, *line),
        Refusal::LongSource => too_long(alloc, "asm:", MAX_SOURCE_BYTES),
        Refusal::SourceLine { number, cause } => source_line(alloc, *number, *cause),
        Refusal::LongCode => too_long(alloc, "dis:", MAX_PROGRAM_BYTES),
        Refusal::HeaderDiffers => String::from_str(alloc, "audit: header differs\n"),
        Refusal::WrongLabel(tick) => wrong_tick(alloc, *tick, "label"),
        Refusal::WrongEvent(tick) => wrong_tick(alloc, *tick, "event"),
        Refusal::NoProcess => String::from_str(alloc, "plan: no such process\n"),
        Refusal::Depot | Refusal::NoMemory => Ok(String::new(alloc)),
    }
}

fn uncertified_line(alloc: Global, level: u8, needs: u64, window: u32) -> Result<String, AllocError>
    ensures { IfOk result (λ s. string_bytes s ≡ refusal_text (Refusal.Uncertified level needs window)) }
{
    format!(in alloc; "not certified: level {level} needs {needs} of {window}\n")
}

/// The line of what has more than so many bytes.
fn too_long(alloc: Global, what: &str, most: u32) -> Result<String, AllocError>
    ensures { IfOk result (λ s. string_bytes s ≡ what.now ++ longer_than most) }
{
    format!(in alloc; "{what} longer than {most} bytes\n")
}

fn long_program_line(alloc: Global, name: &str) -> Result<String, AllocError>
    ensures { IfOk result (λ s. string_bytes s ≡ refusal_text (Refusal.LongProgram name.now)) }
{
    let most = MAX_PROGRAM_BYTES;
    format!(in alloc; "program: process {name} longer than {most} bytes\n")
}

fn ledger_line(alloc: Global, line: u32) -> Result<String, AllocError>
    ensures { IfOk result (λ s. string_bytes s ≡ refusal_text (Refusal.LedgerLine line)) }
{
    format!(in alloc; "ledger: line {line}\n")
}

fn source_line(alloc: Global, number: u32, cause: LineFault) -> Result<String, AllocError>
    ensures { IfOk result (λ s. string_bytes s ≡ refusal_text (Refusal.SourceLine number cause)) }
{
    let word = cause_word(cause);
    format!(in alloc; "asm: line {number} {word}\n")
}

fn wrong_tick(alloc: Global, tick: u32, part: &str) -> Result<String, AllocError>
    ensures { IfOk result (λ s. string_bytes s ≡ tick_text tick part.now) }
{
    format!(in alloc; "audit: tick {tick} {part}\n")
}

fn cause_word(cause: LineFault) -> &'static str
    ensures { result.now ≡ cause_word cause }
{
    match cause {
        LineFault::Form => "form",
        LineFault::Range => "range",
        LineFault::Twice => "twice",
        LineFault::Unknown => "unknown",
        LineFault::Short => "short",
        LineFault::Many => "many",
    }
}
