//! The cell of the column with a name.
ghost use Rattle.std.specs.Prelude.{◌≡◌, ◌==◌, [], map, position};
ghost use Rattle.std.specs.Option.{option_map_or};
ghost use Rattle.std.specs.Str.{bytes_eq};
ghost use Rattle.show_rows.specs.Rows.{cell_named, cell_text, names};

use crate::cell::Cell;

fn end_of_name(columns: &[u8]) -> Option<usize>
    ensures { result ≡ position (λ b. b == 44) columns.now }
{
    columns.iter().position(|byte| *byte == b',')
}

fn is_same(column: &[u8], name: &[u8]) -> bool
    ensures { result ≡ bytes_eq column.now name.now }
{
    column == name
}

/// The cell of the first column with this name. The names of the columns stand between commas.
#[tactic(auto, using(crate::proofs::Cuts::first_name, crate::proofs::Cuts::one_name, crate::proofs::Named::another_name, crate::proofs::Named::no_other_name))]
pub(crate) fn cell_named<'a>(columns: &[u8], cells: &[Cell<'a>], name: &[u8]) -> Option<Cell<'a>>
    ensures { option_map_or cell_text result [] ≡ cell_named (names columns.now) (map cell_text cells.now) name.now }
{
    let [cell, others @ ..] = cells else {
        return None;
    };
    match end_of_name(columns) {
        Some(end) => {
            if is_same(&columns[..end], name) {
                Some(*cell)
            } else {
                cell_named(&columns[end + 1..], others, name)
            }
        }
        None => {
            if is_same(columns, name) {
                Some(*cell)
            } else {
                None
            }
        }
    }
}
