//! A table of comma-separated values, or lines of words, as the rows of a table in HTML.
ghost use Rattle.std.specs.Prelude.{◌≡◌, ◌++◌, drop, flat_map, map, OnOk, IfOk, string_bytes, codes, decimal};
ghost use Rattle.std.specs.Char.{is_ascii_digit};
ghost use Rattle.std.specs.List.{list_all};
ghost use Rattle.dk_html.specs.Escaping.{escaped};
ghost use Rattle.dk_html.specs.Tables.{cell, column_cell, column_row, columns, first_of, is_number, number_property, properties_from, property, row_end, row_of, row_start, rows, rows_of, word_rows};

use crate::cutting::pieces_of;
use crate::escaping::add_escaped;
use crate::pieces::{add_string, add_words};
use std::alloc::{AllocError, Global};

fn property_start(alloc: Global, column: usize) -> Result<String, AllocError>
    ensures { IfOk result (λ s. string_bytes s ≡ codes "--c" ++ (decimal column ++ codes ":")) }
{
    format!(in alloc; "--c{column}:")
}

fn are_digits(field: &[u8]) -> bool
    ensures { result ≡ list_all is_ascii_digit field.now }
{
    field.iter().all(u8::is_ascii_digit)
}

fn is_number(field: &[u8]) -> bool
    ensures { result ≡ is_number field.now }
{
    !field.is_empty() && are_digits(field)
}

fn add_number(
    alloc: Global,
    out: &mut Vec<u8>,
    column: usize,
    field: &[u8],
) -> Result<(), AllocError>
    ensures { OnOk result (out.new.items ≡ out.old.items ++ number_property column field.now) }
{
    add_string(out, property_start(alloc, column)?)?;
    out.extend_from_slice(field)?;
    add_words(out, ";")?;
    Ok(())
}

/// Nothing, where the field isn't a number.
fn add_property(
    alloc: Global,
    out: &mut Vec<u8>,
    column: usize,
    field: &[u8],
) -> Result<(), AllocError>
    ensures { OnOk result (out.new.items ≡ out.old.items ++ property column field.now) }
{
    if is_number(field) {
        add_number(alloc, out, column, field)
    } else {
        Ok(())
    }
}

fn add_properties(alloc: Global, out: &mut Vec<u8>, fields: &[&[u8]]) -> Result<(), AllocError>
    ensures { OnOk result (out.new.items ≡ out.old.items ++ properties_from 0 (map (λ f. f.now) fields.now)) }
{
    for column in 0..fields.len() {
        add_property(alloc, out, column, fields[column])?;
    }
    Ok(())
}

fn add_cell(out: &mut Vec<u8>, field: &[u8]) -> Result<(), AllocError>
    ensures { OnOk result (out.new.items ≡ out.old.items ++ cell field.now) }
{
    add_words(out, "<td>")?;
    add_escaped(out, field)?;
    add_words(out, "</td>")?;
    Ok(())
}

fn add_cells(out: &mut Vec<u8>, fields: &[&[u8]]) -> Result<(), AllocError>
    ensures { OnOk result (out.new.items ≡ out.old.items ++ flat_map cell (map (λ f. f.now) fields.now)) }
{
    for field in fields {
        add_cell(out, field)?;
    }
    Ok(())
}

fn first_of<'a>(fields: &[&'a [u8]]) -> &'a [u8]
    ensures { result.now ≡ first_of (map (λ f. f.now) fields.now) }
{
    match fields {
        [first, ..] => first,
        [] => b"",
    }
}

fn add_row_start(alloc: Global, out: &mut Vec<u8>, fields: &[&[u8]]) -> Result<(), AllocError>
    ensures { OnOk result (out.new.items ≡ out.old.items ++ row_start (map (λ f. f.now) fields.now)) }
{
    add_words(out, "<tr data-kind=\"")?;
    add_escaped(out, first_of(fields))?;
    add_words(out, "\" style=\"")?;
    add_properties(alloc, out, fields)?;
    add_words(out, "\">")?;
    Ok(())
}

fn add_row_end(out: &mut Vec<u8>, fields: &[&[u8]]) -> Result<(), AllocError>
    ensures { OnOk result (out.new.items ≡ out.old.items ++ row_end (map (λ f. f.now) fields.now)) }
{
    add_cells(out, fields)?;
    add_words(
        out,
        "<td class=\"fill\" aria-hidden=\"true\"><div class=\"bar\"><i></i><i></i><i></i></div></td></tr>\n",
    )?;
    Ok(())
}

fn add_row(alloc: Global, out: &mut Vec<u8>, between: u8, line: &[u8]) -> Result<(), AllocError>
    ensures { OnOk result (out.new.items ≡ out.old.items ++ row_of between line.now) }
{
    if line.is_empty() {
        return Ok(());
    }
    let fields = pieces_of(alloc, line, between)?;
    add_row_start(alloc, out, fields.as_slice())?;
    add_row_end(out, fields.as_slice())?;
    Ok(())
}

/// Adds a row for each of the lines, whose fields stand between bytes of one kind.
fn add_lines(
    alloc: Global,
    out: &mut Vec<u8>,
    between: u8,
    lines: &[&[u8]],
) -> Result<(), AllocError>
    ensures { OnOk result (out.new.items ≡ out.old.items ++ rows_of between (map (λ l. l.now) lines.now)) }
{
    for line in lines {
        add_row(alloc, out, between, line)?;
    }
    Ok(())
}

fn behind_first<'a>(lines: &'a [&'a [u8]]) -> &'a [&'a [u8]]
    ensures { map (λ l. l.now) result.now ≡ drop 1 (map (λ l. l.now) lines.now) }
{
    match lines {
        [_, rest @ ..] => rest,
        [] => lines,
    }
}

/// Adds a row for each line of a table of comma-separated values, but the first, which has the names of the columns. A row
/// has a cell for each field, and those that are numbers once more as properties, `--c0`, `--c1` and so on by their columns,
/// from which a style sheet draws its bar.
pub(crate) fn add_rows(alloc: Global, out: &mut Vec<u8>, text: &[u8]) -> Result<(), AllocError>
    ensures { OnOk result (out.new.items ≡ out.old.items ++ rows text.now) }
{
    let lines = pieces_of(alloc, text, b'\n')?;
    add_lines(alloc, out, b',', behind_first(lines.as_slice()))
}

fn add_column_cell(out: &mut Vec<u8>, field: &[u8]) -> Result<(), AllocError>
    ensures { OnOk result (out.new.items ≡ out.old.items ++ column_cell field.now) }
{
    add_words(out, "<th scope=\"col\">")?;
    add_escaped(out, field)?;
    add_words(out, "</th>")?;
    Ok(())
}

fn add_column_cells(out: &mut Vec<u8>, names: &[&[u8]]) -> Result<(), AllocError>
    ensures { OnOk result (out.new.items ≡ out.old.items ++ flat_map column_cell (map (λ f. f.now) names.now)) }
{
    for name in names {
        add_column_cell(out, name)?;
    }
    Ok(())
}

fn add_column_row(out: &mut Vec<u8>, names: &[&[u8]]) -> Result<(), AllocError>
    ensures { OnOk result (out.new.items ≡ out.old.items ++ column_row (map (λ f. f.now) names.now)) }
{
    add_words(out, "<tr>")?;
    add_column_cells(out, names)?;
    add_words(out, "<th class=\"fill\" aria-hidden=\"true\"></th></tr>\n")?;
    Ok(())
}

/// Adds the row of the names of the columns, which stand in the first line.
pub(crate) fn add_columns(alloc: Global, out: &mut Vec<u8>, text: &[u8]) -> Result<(), AllocError>
    ensures { OnOk result (out.new.items ≡ out.old.items ++ columns text.now) }
{
    let lines = pieces_of(alloc, text, b'\n')?;
    let names = pieces_of(alloc, first_of(lines.as_slice()), b',')?;
    add_column_row(out, names.as_slice())
}

/// Adds such a row for each line of words with a space between each two.
pub(crate) fn add_word_rows(alloc: Global, out: &mut Vec<u8>, text: &[u8]) -> Result<(), AllocError>
    ensures { OnOk result (out.new.items ≡ out.old.items ++ word_rows text.now) }
{
    let lines = pieces_of(alloc, text, b'\n')?;
    add_lines(alloc, out, b' ', lines.as_slice())
}
