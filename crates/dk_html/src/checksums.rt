//! The row of a file, with its length and its checksum.
ghost use Rattle.std.specs.Prelude.{◌≡◌, ◌++◌, IfOk, OnOk, string_bytes};
ghost use Rattle.dk_html.specs.Checksums.{checksum, file_end, file_row, file_start};

use crate::escaping::add_escaped;
use crate::pieces::add_string;
use sha2::{Digest, Sha256};
use std::alloc::{AllocError, Global};

fn checksum(alloc: Global, bytes: &[u8]) -> Result<String, AllocError>
    ensures { IfOk result (λ s. string_bytes s ≡ checksum bytes.now) }
{
    hex::encode(alloc, Sha256::digest(bytes))
}

fn file_start(alloc: Global, what: &str) -> Result<String, AllocError>
    ensures { IfOk result (λ s. string_bytes s ≡ file_start what.now) }
{
    format!(in alloc; "<tr><th scope=\"row\">{what}</th><td><code>")
}

fn file_end(alloc: Global, size: usize, digest: &str) -> Result<String, AllocError>
    ensures { IfOk result (λ s. string_bytes s ≡ file_end size digest.now) }
{
    format!(in alloc;
        "</code></td><td class=\"number\">{size}</td><td class=\"hash\"><code>{digest}</code></td></tr>\n"
    )
}

/// Adds the row of a file: what it is, in words that need no escaping, its name as given, its length in bytes, and the
/// SHA-256 of its bytes.
pub(crate) fn add_file(
    alloc: Global,
    out: &mut Vec<u8>,
    what: &str,
    name: &[u8],
    bytes: &[u8],
) -> Result<(), AllocError>
    ensures { OnOk result (out.new.items ≡ out.old.items ++ file_row what.now name.now bytes.now) }
{
    let digest = checksum(alloc, bytes)?;
    add_string(out, file_start(alloc, what)?)?;
    add_escaped(out, name)?;
    add_string(out, file_end(alloc, bytes.len(), digest.as_str())?)?;
    Ok(())
}
