//! A page as a list of its parts.
ghost use Rattle.std.specs.Prelude.{◌≡◌, ◌++◌, decimal, map, OnOk, IfOk, string_bytes};
ghost use Rattle.dk_html.specs.Parts.{joined, part_text};

use crate::checksums::add_file;
use crate::escaping::add_escaped;
use crate::outputs::add_output;
use crate::pieces::{add_string, add_words};
use crate::tables::{add_columns, add_rows, add_word_rows};
use std::alloc::{AllocError, Global};

/// A part of a page.
#[derive(Clone, Copy)]
pub enum Part<'a> {
    /// Words of the page itself, with its marks.
    Words(&'a str),
    /// What was made for the page before, with its marks.
    Made(&'a [u8]),
    /// A text, as a browser shows it.
    Text(&'a [u8]),
    Number(u64),
    /// The names of the columns of a table of comma-separated values, a row of heads.
    Columns(&'a [u8]),
    /// The rows of a table of comma-separated values, but the first, which has the names of the columns. Each has a cell for
    /// each field, and those that are numbers once more as properties, `--c0`, `--c1` and so on by their columns, from which a
    /// style sheet draws its bar.
    Rows(&'a [u8]),
    /// Such a row for each line of words with a space between each two.
    Lines(&'a [u8]),
    /// The words of a command, in which nothing needs escaping, and the names of its files, which open what it writes.
    Output {
        command: &'a str,
        name: &'a [u8],
        text: &'a [u8],
    },
    /// The row of a file: what it is, in words that need no escaping, its name as given, its length in bytes, and the SHA-256
    /// of its bytes.
    File {
        what: &'a str,
        name: &'a [u8],
        bytes: &'a [u8],
    },
}

fn number_text(alloc: Global, number: u64) -> Result<String, AllocError>
    ensures { IfOk result (λ s. string_bytes s ≡ decimal number) }
{
    format!(in alloc; "{number}")
}

fn add_part(alloc: Global, out: &mut Vec<u8>, part: &Part) -> Result<(), AllocError>
    ensures { OnOk result (out.new.items ≡ out.old.items ++ part_text part.now) }
{
    match *part {
        Part::Words(words) => add_words(out, words),
        Part::Made(bytes) => out.extend_from_slice(bytes),
        Part::Text(text) => add_escaped(out, text),
        Part::Number(number) => add_string(out, number_text(alloc, number)?),
        Part::Columns(table) => add_columns(alloc, out, table),
        Part::Rows(table) => add_rows(alloc, out, table),
        Part::Lines(text) => add_word_rows(alloc, out, text),
        Part::Output {
            command,
            name,
            text,
        } => add_output(out, command, name, text),
        Part::File { what, name, bytes } => add_file(alloc, out, what, name, bytes),
    }
}

/// Adds the parts, one behind the other. `Err` is want of memory.
pub fn add_parts(alloc: Global, out: &mut Vec<u8>, parts: &[Part]) -> Result<(), AllocError>
    ensures { OnOk result (out.new.items ≡ out.old.items ++ joined (map part_text parts.now)) }
{
    for part in parts {
        add_part(alloc, out, part)?;
    }
    Ok(())
}
