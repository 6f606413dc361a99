//! What is told of a document.
ghost use Rattle.std.specs.Prelude.{◌≡◌, ◌≤◌, IfOk, false, length, string_bytes};
ghost use Rattle.dk_config.specs.declared.TheConstants.{MAX_CONFIG_BYTES};
ghost use Rattle.dk_document_report.specs.Expressions.{is_document};
ghost use Rattle.dk_document_report.specs.Standing.{is_refused};
ghost use Rattle.dk_document_report.specs.Telling.{IsMessage, IsNotTomlText, Tells, not_toml_text};

use crate::marks::ends_of_expressions;
use crate::place::{Place, place_after};
use crate::places::piece_of;
use crate::reading::is_document;
use crate::reasons::has_control;
use crate::shape::shape_page;
use dk_config::{MAX_CONFIG_BYTES, NoMemory};
use dk_config_report::{Page, faults};
use dk_loader::{LoadFault, read_shaped};
use std::alloc::{AllocError, Global};

fn not_toml_line(
    alloc: Global,
    kind: &str,
    place: Place,
    message: &str,
) -> Result<String, AllocError>
    ensures { IfOk result (λ s. string_bytes s ≡ not_toml_text kind.now place message.now) }
{
    let line = place.line;
    let column = place.column;
    format!(in alloc; "{kind}: not TOML: line {line} column {column}: {message}\nfaults 1\n")
}

fn is_refused(alloc: Global, bytes: &[u8]) -> Result<bool, NoMemory>
    ensures { IfOk result (λ found. found ≡ is_refused bytes.now) }
{
    Ok(!is_document(alloc, bytes)?)
}

/// The reader's message, where it fits on the line.
fn shown_message(message: &str) -> &str
    ensures { IsMessage result.now }
{
    if message.is_empty() || has_control(message.as_bytes()) {
        "it can't be read"
    } else {
        message
    }
}

/// The line of a document that isn't TOML: the place is that at which the reader stopped, in the expression at fault.
fn stopped_page(
    alloc: Global,
    kind: &str,
    bytes: &[u8],
    stopped: usize,
    message: &str,
) -> Result<Page, NoMemory>
    requires few { length bytes.now ≤ MAX_CONFIG_BYTES }
    requires refused { is_document bytes.now ≡ false }
    ensures { IfOk result (λ page. IsNotTomlText kind.now bytes.now page) }
{
    let ends = ends_of_expressions(alloc, bytes)?;
    let piece = piece_of(bytes, ends.as_slice(), |part| is_refused(alloc, part))?;
    let at = stopped.max(piece.start).min(piece.stop);
    let place = place_after(&bytes[..at]);
    Ok(Page::new(not_toml_line(alloc, kind, place, shown_message(message))?))
}

/// The line of a document of this kind that isn't TOML, `config` or another: the line, the column and the reader's message.
/// It has at most 65,536 bytes. `Err` is want of memory, or that it is TOML.
pub fn not_toml(alloc: Global, kind: &str, bytes: &[u8]) -> Result<Page, NoMemory>
    requires few { length bytes.now ≤ MAX_CONFIG_BYTES }
    ensures { IfOk result (λ page. IsNotTomlText kind.now bytes.now page) }
{
    // The reader has just refused it.
    if is_document(alloc, bytes)? {
        return Err(NoMemory);
    }
    let error = match toml::de::table_from_slice(alloc, bytes) {
        Ok(_) => return Err(NoMemory),
        Err(error) => error,
    };
    match error.span() {
        Some(span) => stopped_page(alloc, kind, bytes, span.start, error.message()),
        None => Err(NoMemory),
    }
}

/// All that is wrong with a document of at most 65,536 bytes, a line each and then how many: where it isn't TOML, the line,
/// the column and the reader's message; where it breaks some of the rules C1 to C3, each of these; and else each of C4
/// to C13 that it breaks. `Err` is want of memory.
pub fn document_faults(alloc: Global, bytes: &[u8]) -> Result<Page, NoMemory>
    requires few { length bytes.now ≤ MAX_CONFIG_BYTES }
    ensures { IfOk result (λ page. Tells bytes.now page) }
{
    match read_shaped(alloc, bytes) {
        Ok(config) => faults(alloc, &config),
        Err(LoadFault::NotToml) => not_toml(alloc, "config", bytes),
        Err(LoadFault::Config(_)) => shape_page(alloc, bytes),
        Err(_) => Err(NoMemory),
    }
}
