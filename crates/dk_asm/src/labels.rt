//! The labels of a source, with their values.
ghost use Rattle.std.specs.Prelude.{ℕ, ◌≡◌, ◌<◌, ◌^◌, ◌+◌, List, Some, None, if◌then◌else◌, length, OnOk, IfOk};
ghost use Rattle.std.specs.Option.{option_or};
ghost use Rattle.std.specs.Str.{bytes_eq};
ghost use Rattle.dk_asm.specs.Places.{place, place_in, place_on, ArePlaces};
ghost use Rattle.dk_asm.specs.Seen.{seen_line, seen_lines};
ghost use Rattle.dk_asm.specs.Source.{instructions, has_instruction};

use crate::line::Line;
use std::alloc::{AllocError, Global};
use std::collections::BTreeMap;

/// The first line of a label, from 0, and the label's value.
#[derive(Clone, Copy)]
pub struct Place {
    pub line: usize,
    pub value: usize,
}

/// The labels of a source, and how many instructions it has.
#[derive(Drop)]
pub struct Labels<'a> {
    pub(crate) places: BTreeMap<&'a [u8], Place>,
    pub(crate) instructions: usize,
}

pub(crate) fn place_at<'a>(places: &BTreeMap<&'a [u8], Place>, name: &'a [u8]) -> Option<Place>
    ensures { result ≡ place_in places.now name.now }
{
    places.get(&name).copied()
}

/// Gives the name a place, unless it has one.
fn add_label<'a>(
    places: &mut BTreeMap<&'a [u8], Place>,
    name: &'a [u8],
    place: Place,
) -> Result<(), AllocError>
    ensures { OnOk result ((other : List ℕ) → place_in places.new other
        ≡ option_or (place_in places.old other) (if bytes_eq name.now other then Some place else None)) }
{
    if place_at(places, name).is_some() {
        return Ok(());
    }
    places.insert(name, place)?;
    Ok(())
}

fn give_place<'a>(
    places: &mut BTreeMap<&'a [u8], Place>,
    line: &Option<Line<'a>>,
    place: Place,
) -> Result<(), AllocError>
    ensures { OnOk result ((name : List ℕ) → place_in places.new name
        ≡ option_or (place_in places.old name) (place_on (seen_line line.now) place name)) }
{
    let Some(line) = line else {
        return Ok(());
    };
    let Some(name) = line.label else {
        return Ok(());
    };
    add_label(places, name, place)
}

/// How many instructions the line has, 0 or 1.
pub(crate) fn instructions_on<'a>(line: &Option<Line<'a>>) -> usize
    ensures { result ≡ (if has_instruction (seen_line line.now) then 1 else 0) }
{
    match line {
        Some(line) if line.statement.is_some() => 1,
        _ => 0,
    }
}

/// Adds line i, from 0, behind the lines before it.
fn add_line<'a>(
    labels: &mut Labels<'a>,
    i: usize,
    line: &Option<Line<'a>>,
) -> Result<(), AllocError>
    requires { labels.old.instructions < 2 ^ 32 }
    ensures places { OnOk result ((name : List ℕ) → place_in labels.new.places name
        ≡ option_or (place_in labels.old.places name)
        (place_on (seen_line line.now) (place i labels.old.instructions) name)) }
    ensures instructions { OnOk result (labels.new.instructions
        ≡ labels.old.instructions + (if has_instruction (seen_line line.now) then 1 else 0)) }
{
    let place = Place {
        line: i,
        value: labels.instructions,
    };
    give_place(&mut labels.places, line, place)?;
    labels.instructions += instructions_on(line);
    Ok(())
}

/// The labels of the lines of a source.
pub(crate) fn labels_of<'a>(
    alloc: Global,
    lines: &[Option<Line<'a>>],
) -> Result<Labels<'a>, AllocError>
    requires { length lines.now < 2 ^ 32 }
    ensures places { IfOk result (λ l. ArePlaces l.places (seen_lines lines.now)) }
    ensures instructions { IfOk result (λ l. l.instructions ≡ instructions (seen_lines lines.now)) }
{
    let mut labels = Labels {
        places: BTreeMap::new(alloc),
        instructions: 0,
    };
    for (i, line) in lines.iter().enumerate() {
        add_line(&mut labels, i, line)?;
    }
    Ok(labels)
}
