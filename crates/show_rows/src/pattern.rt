//! A pattern, and the cells of a row in its holes.
ghost use Rattle.std.specs.Prelude.{◌≡◌, ◌++◌, None, map, option_map, IfOk, OnOk};
ghost use Rattle.show_rows.specs.Rows.{cell_named, cell_text, filled, hole_after, names, shown};

use crate::cell::{Cell, cell_text};
use crate::column::cell_named;
use std::alloc::{AllocError, Global};

fn add_cell_named(
    alloc: Global,
    out: &mut Vec<u8>,
    columns: &str,
    cells: &[Cell],
    name: &[u8],
) -> Result<(), AllocError>
    ensures { OnOk result (out.new.items ≡ out.old.items ++ cell_named (names columns.now) (map cell_text cells.now) name.now) }
{
    match cell_named(columns.as_bytes(), cells, name) {
        Some(cell) => {
            let text = cell_text(alloc, &cell)?;
            out.extend_from_slice(text.as_str().as_bytes())
        }
        None => Ok(()),
    }
}

/// Adds what a byte of the pattern stands for.
fn add_shown(
    alloc: Global,
    out: &mut Vec<u8>,
    columns: &str,
    cells: &[Cell],
    hole: Option<&[u8]>,
    byte: u8,
) -> Result<(), AllocError>
    ensures { OnOk result (out.new.items
        ≡ out.old.items ++ shown (names columns.now) (map cell_text cells.now) (option_map (λ name. name.now) hole.entry) byte) }
{
    match hole {
        Some(name) => {
            if byte == b'}' {
                add_cell_named(alloc, out, columns, cells, name)
            } else {
                Ok(())
            }
        }
        None => {
            if byte == b'{' {
                Ok(())
            } else {
                out.extend_from_slice(&[byte])
            }
        }
    }
}

/// The hole that is open behind the byte, with its name so far.
fn hole_after(alloc: Global, hole: Option<Vec<u8>>, byte: u8) -> Result<Option<Vec<u8>>, AllocError>
    ensures { IfOk result (λ after. option_map (λ name. name.items) after ≡ hole_after (option_map (λ name. name.items) hole) byte) }
{
    match hole {
        Some(mut name) => {
            if byte == b'}' {
                return Ok(None);
            }
            name.push(byte)?;
            Ok(Some(name))
        }
        None => {
            if byte == b'{' {
                Ok(Some(Vec::new(alloc)))
            } else {
                Ok(None)
            }
        }
    }
}

fn name_so_far(hole: &Option<Vec<u8>>) -> Option<&[u8]>
    ensures { option_map (λ name. name.now) result ≡ option_map (λ name. name.items) hole.now }
{
    match hole {
        Some(name) => Some(name.as_slice()),
        None => None,
    }
}

/// Adds the pattern with these cells in its holes.
pub(crate) fn add_filled(
    alloc: Global,
    out: &mut Vec<u8>,
    columns: &str,
    pattern: &str,
    cells: &[Cell],
) -> Result<(), AllocError>
    ensures { OnOk result (out.new.items ≡ out.old.items ++ filled (names columns.now) (map cell_text cells.now) None pattern.now) }
{
    let mut hole = None;
    for byte in pattern.as_bytes() {
        add_shown(alloc, out, columns, cells, name_so_far(&hole), *byte)?;
        hole = hole_after(alloc, hole, *byte)?;
    }
    Ok(())
}
