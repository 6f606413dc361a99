//! The columns of a table of which nothing would be asked: those of no process, and each one more of the same.
ghost use Rattle.std.specs.Prelude.{◌≡◌, ◌+◌, ◌<◌, ◌^◌, ◌++◌, Some, length, option_map, IfOk, OnOk};
ghost use Rattle.csv.specs.Records.{field_at, fields_of};
ghost use Rattle.show_budgets.specs.Strangers.{again_told, column_again, column_head, column_number, header, is_again, is_named, is_process, stranger_told, strangers_below, strangers_told};

use csv::ByteRecord;
use dk_asm::first_line;
use dk_config::{NoMemory, ProcessRow};
use dk_times::record_of;
use std::alloc::Global;

/// The first line that isn't blank, which has the names.
fn header(alloc: Global, table: &[u8]) -> Result<Option<ByteRecord>, NoMemory>
    ensures { IfOk result (λ row. option_map fields_of row ≡ header table.now) }
{
    let mut rest = table;
    while !rest.is_empty() {
        let (line, behind) = first_line(rest);
        if let Some(row) = record_of(alloc, line)? {
            return Ok(Some(row));
        }
        rest = behind;
    }
    Ok(None)
}

fn is_process(rows: &[ProcessRow], name: &[u8]) -> bool
    ensures { result ≡ is_process rows.now name.now }
{
    rows.iter().any(|row| name == row.name.as_str().as_bytes())
}

fn add_column_number(alloc: Global, out: &mut Vec<u8>, place: usize) -> Result<(), NoMemory>
    requires { place + 1 < 2 ^ 64 }
    ensures { OnOk result (out.new.items ≡ out.old.items ++ column_number place) }
{
    let number = place + 1;
    let text = format!(in alloc; "times: column {number} is no process\n")?;
    out.extend_from_slice(text.as_str().as_bytes())?;
    Ok(())
}

fn is_named(row: &ByteRecord, place: usize, name: &[u8]) -> bool
    ensures { result ≡ is_named name.now (field_at (fields_of row.now) place) }
{
    match row.get(place) {
        Some(other) => name == other,
        None => false,
    }
}

/// A column in front of this place has the same name, and is the one that is read.
fn is_again(row: &ByteRecord, place: usize, name: &[u8]) -> bool
    ensures { result ≡ is_again (fields_of row.now) place name.now }
{
    for other in 0..place {
        if is_named(row, other, name) {
            return true;
        }
    }
    false
}

fn add_column_head(alloc: Global, out: &mut Vec<u8>, place: usize) -> Result<(), NoMemory>
    requires { place + 1 < 2 ^ 64 }
    ensures { OnOk result (out.new.items ≡ out.old.items ++ column_head place) }
{
    let number = place + 1;
    let head = format!(in alloc; "times: column {number} is ")?;
    out.extend_from_slice(head.as_str().as_bytes())?;
    Ok(())
}

fn add_column_again(
    alloc: Global,
    out: &mut Vec<u8>,
    place: usize,
    name: &[u8],
) -> Result<(), NoMemory>
    requires { place + 1 < 2 ^ 64 }
    ensures { OnOk result (out.new.items ≡ out.old.items ++ column_again place name.now) }
{
    add_column_head(alloc, out, place)?;
    out.extend_from_slice(name)?;
    out.extend_from_slice(" once more\n".as_bytes())?;
    Ok(())
}

fn add_again(
    alloc: Global,
    out: &mut Vec<u8>,
    row: &ByteRecord,
    place: usize,
    name: &[u8],
) -> Result<(), NoMemory>
    requires { place + 1 < 2 ^ 64 }
    ensures { OnOk result (out.new.items ≡ out.old.items ++ again_told (fields_of row.now) place name.now) }
{
    if is_again(row, place, name) {
        add_column_again(alloc, out, place, name)?;
    }
    Ok(())
}

fn add_stranger(
    alloc: Global,
    out: &mut Vec<u8>,
    rows: &[ProcessRow],
    row: &ByteRecord,
    place: usize,
    name: &[u8],
) -> Result<(), NoMemory>
    requires { place + 1 < 2 ^ 64 }
    ensures { OnOk result (out.new.items ≡ out.old.items ++ stranger_told rows.now (fields_of row.now) place (Some name.now)) }
{
    if is_process(rows, name) {
        return add_again(alloc, out, row, place, name);
    }
    add_column_number(alloc, out, place)
}

fn add_at(
    alloc: Global,
    out: &mut Vec<u8>,
    rows: &[ProcessRow],
    row: &ByteRecord,
    place: usize,
) -> Result<(), NoMemory>
    ensures { OnOk result (out.new.items ≡ out.old.items ++ stranger_told rows.now (fields_of row.now) place (field_at (fields_of row.now) place)) }
{
    match row.get(place) {
        Some(name) => add_stranger(alloc, out, rows, row, place, name),
        None => Ok(()),
    }
}

/// Each column that is that of no process, or of one once more, by its number, from 1.
#[tactic(auto, using(crate::proofs::OneColumn::one_more))]
fn add_strangers(
    alloc: Global,
    out: &mut Vec<u8>,
    rows: &[ProcessRow],
    row: &ByteRecord,
) -> Result<(), NoMemory>
    ensures { OnOk result (out.new.items ≡ out.old.items ++ strangers_below rows.now (fields_of row.now) (length (fields_of row.now))) }
{
    for place in 0..row.len() {
        add_at(alloc, out, rows, row, place)?;
    }
    Ok(())
}

/// Each column of the table that is that of no process, or of one once more.
pub(crate) fn strangers_told(
    alloc: Global,
    out: &mut Vec<u8>,
    rows: &[ProcessRow],
    table: &[u8],
) -> Result<(), NoMemory>
    ensures { OnOk result (out.new.items ≡ out.old.items ++ strangers_told rows.now (header table.now)) }
{
    match header(alloc, table)? {
        Some(row) => add_strangers(alloc, out, rows, &row),
        None => Ok(()),
    }
}
