//! A field of a record, in quotes where it calls for them (RFC 4180; Shafranovich, 2005).
ghost use Rattle.std.specs.Prelude.{◌≡◌, ◌++◌, OnOk};
ghost use Rattle.csv.specs.Writing.{default_writer, escaped, field_text, needs_quotes, quoted};

use std::alloc::AllocError;

fn needs_quotes(field: &[u8]) -> bool
    ensures { result ≡ needs_quotes default_writer field.now }
{
    field
        .iter()
        .any(|byte| matches!(*byte, b',' | b'"' | b'\r' | b'\n'))
}

/// Each quote twice.
#[tactic(auto, unfolding(csv::specs::Writing::escaped))]
fn add_escaped(out: &mut Vec<u8>, field: &[u8]) -> Result<(), AllocError>
    ensures { OnOk result (out.new.items ≡ out.old.items ++ escaped default_writer field.now) }
{
    for byte in field {
        if *byte == b'"' {
            out.push(b'"')?;
        }
        out.push(*byte)?;
    }
    Ok(())
}

fn add_quoted(out: &mut Vec<u8>, field: &[u8]) -> Result<(), AllocError>
    ensures { OnOk result (out.new.items ≡ out.old.items ++ quoted default_writer field.now) }
{
    out.push(b'"')?;
    add_escaped(out, field)?;
    out.push(b'"')?;
    Ok(())
}

/// Adds a field.
pub(crate) fn add_field(out: &mut Vec<u8>, field: &[u8]) -> Result<(), AllocError>
    ensures { OnOk result (out.new.items ≡ out.old.items ++ field_text default_writer field.now) }
{
    if needs_quotes(field) {
        add_quoted(out, field)
    } else {
        out.extend_from_slice(field)
    }
}
