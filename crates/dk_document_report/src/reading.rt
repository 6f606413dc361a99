//! The table of a document.
ghost use Rattle.std.specs.Prelude.{◌≡◌, option_map, IfOk};
ghost use Rattle.toml.specs.View.{table_view};
ghost use Rattle.dk_loader.specs.Reading.{document};
ghost use Rattle.dk_document_report.specs.Expressions.{is_document};

use dk_config::NoMemory;
use std::alloc::Global;
use toml::Table;

/// The table of these bytes, where they are a document.
pub fn table_of(alloc: Global, bytes: &[u8]) -> Result<Option<Table>, NoMemory>
    ensures { IfOk result (λ t. option_map table_view t ≡ document bytes.now) }
{
    match toml::de::table_from_slice(alloc, bytes) {
        Ok(table) => Ok(Some(table)),
        Err(error) if error.is_memory() => Err(NoMemory),
        Err(_) => Ok(None),
    }
}

/// Whether these bytes are a document.
pub(crate) fn is_document(alloc: Global, bytes: &[u8]) -> Result<bool, NoMemory>
    ensures { IfOk result (λ found. found ≡ is_document bytes.now) }
{
    match table_of(alloc, bytes)? {
        Some(_) => Ok(true),
        None => Ok(false),
    }
}
