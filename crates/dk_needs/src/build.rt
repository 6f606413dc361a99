//! The needs out of a document whose tables are as they must be.
ghost use Rattle.std.specs.Prelude.{◌≡◌, ◌++◌, flat_map, map, IfOk, OnOk};
ghost use Rattle.toml.specs.View.{view, table_view};
ghost use Rattle.dk_loader.specs.Reading.{text_at, text_of};
ghost use Rattle.dk_needs.specs.Keys.{key_name, sections};
ghost use Rattle.dk_needs.specs.Reading.{is_there, jitter_of, names_at, need_in, need_row, needs_of, room_of, section_needs, tick_at, what_of};
ghost use Rattle.dk_needs.specs.Shape.{from_row};

use crate::fault::{Key, Place, Section};
use crate::keys::{Form, section_key, sections};
use crate::look::{find, is_missing, number_at, optional_at, rows_at};
use crate::needs::{Names, Need, Needs, Tick, What};
use crate::shape::form_of;
use crate::tick::tick_of;
use dk_config::Text;
use std::alloc::{AllocError, Global};
use toml::{Table, Value};

fn str_of(value: &Value) -> &str
    ensures { result.now ≡ text_of (view value.now) }
{
    match value.as_str() {
        Some(text) => text,
        None => "",
    }
}

fn str_at<'a>(table: &'a Table, key: Key) -> &'a str
    ensures { result.now ≡ text_at (key_name key) (table_view table.now) }
{
    match find(table, key) {
        Some(value) => str_of(value),
        None => "",
    }
}

fn text_at(alloc: Global, table: &Table, key: Key) -> Result<Text, AllocError>
    ensures { IfOk result (λ t. t ≡ text_at (key_name key) (table_view table.now)) }
{
    Ok(Text::new(String::from_str(alloc, str_at(table, key))?))
}

fn text_of(alloc: Global, value: &Value) -> Result<Text, AllocError>
    ensures { IfOk result (λ t. t ≡ text_of (view value.now)) }
{
    Ok(Text::new(String::from_str(alloc, str_of(value))?))
}

fn texts_of(alloc: Global, values: &[Value]) -> Result<Vec<Text>, AllocError>
    ensures { IfOk result (λ v. v.items ≡ map text_of (map view values.now)) }
{
    let mut texts = Vec::new(alloc);
    for value in values {
        texts.push(text_of(alloc, value)?)?;
    }
    Ok(texts)
}

fn names_at(alloc: Global, table: &Table, key: Key) -> Result<Names, AllocError>
    ensures { IfOk result (λ n. n ≡ names_at (key_name key) (table_view table.now)) }
{
    Ok(Names::new(texts_of(alloc, rows_at(table, key))?))
}

/// How long a tick is, where the document says it.
fn tick_at(table: &Table) -> Option<Tick>
    ensures { result ≡ tick_at (table_view table.now) }
{
    match find(table, Key::Tick) {
        Some(value) => tick_of(str_of(value).as_bytes()),
        None => None,
    }
}

/// Whether there is a value at the key.
fn is_there(table: &Table, key: Key) -> bool
    ensures { result ≡ is_there (key_name key) (table_view table.now) }
{
    !is_missing(table, key)
}

/// Room for one number.
fn room_of(alloc: Global, form: Form, table: &Table) -> Result<What, AllocError>
    ensures { IfOk result (λ w. w ≡ room_of form (table_view table.now)) }
{
    match form {
        Form::Budget => Ok(What::Budget {
            process: text_at(alloc, table, Key::Process)?,
            budget: number_at(table, Key::Budget),
        }),
        Form::Hold => Ok(What::Hold {
            mutex: text_at(alloc, table, Key::Mutex)?,
            hold: number_at(table, Key::Hold),
        }),
        _ => Ok(What::Release {
            level: number_at(table, Key::Level),
            release: number_at(table, Key::Release),
        }),
    }
}

fn chain_of(alloc: Global, table: &Table) -> Result<What, AllocError>
    ensures { IfOk result (λ w. w ≡ what_of Form.Chain (table_view table.now)) }
{
    Ok(What::Chain {
        processes: names_at(alloc, table, Key::Processes)?,
        reaction: optional_at(table, Key::Reaction),
        age: optional_at(table, Key::Age),
    })
}

/// The jitter of a process, or of a chain.
fn jitter_of(alloc: Global, form: Form, table: &Table) -> Result<What, AllocError>
    ensures { IfOk result (λ w. w ≡ jitter_of form (table_view table.now)) }
{
    match form {
        Form::ChainJitter => Ok(What::ChainJitter {
            processes: names_at(alloc, table, Key::Processes)?,
            reaction: number_at(table, Key::Reaction),
        }),
        _ => Ok(What::Jitter {
            process: text_at(alloc, table, Key::Process)?,
            begins: optional_at(table, Key::Begins),
            done: optional_at(table, Key::Done),
        }),
    }
}

/// What a row of this form asks for.
fn what_of(alloc: Global, form: Form, table: &Table) -> Result<What, AllocError>
    ensures { IfOk result (λ w. w ≡ what_of form (table_view table.now)) }
{
    match form {
        Form::Deadline => Ok(What::Deadline {
            process: text_at(alloc, table, Key::Process)?,
            within: number_at(table, Key::Within),
        }),
        Form::Chain | Form::Age => chain_of(alloc, table),
        Form::Jitter | Form::DoneJitter | Form::ChainJitter => jitter_of(alloc, form, table),
        Form::Budget | Form::Hold | Form::Release => room_of(alloc, form, table),
        Form::Growth => Ok(What::Growth {
            percent: number_at(table, Key::Percent),
        }),
        Form::Spare => Ok(What::Spare {
            level: number_at(table, Key::Level),
            ticks: number_at(table, Key::Ticks),
        }),
        Form::Slack => Ok(What::Slack {
            process: text_at(alloc, table, Key::Process)?,
            each: number_at(table, Key::Each),
            within: optional_at(table, Key::Within),
        }),
        Form::Always => Ok(What::Always {
            process: text_at(alloc, table, Key::Process)?,
        }),
        Form::Run => Ok(What::Run {
            overruns: optional_at(table, Key::Overruns),
            refused: optional_at(table, Key::Refused),
            faults: optional_at(table, Key::Faults),
            forever: is_there(table, Key::Forever),
        }),
    }
}

fn need_in(alloc: Global, section: Section, row: usize, table: &Table) -> Result<Need, AllocError>
    ensures { IfOk result (λ n. n ≡ need_in section row (table_view table.now)) }
{
    Ok(Need {
        place: Place { section, row },
        id: text_at(alloc, table, Key::Id)?,
        what: what_of(alloc, form_of(section, table), table)?,
    })
}

/// Adds the need of a row, and none where the row is no table.
fn add_need(
    alloc: Global,
    needs: &mut Vec<Need>,
    section: Section,
    row: usize,
    value: &Value,
) -> Result<(), AllocError>
    ensures { OnOk result (needs.new.items ≡ needs.old.items ++ need_row section row (view value.now)) }
{
    if let Some(table) = value.as_table() {
        needs.push(need_in(alloc, section, row, table)?)?;
    }
    Ok(())
}

fn add_rows(
    alloc: Global,
    needs: &mut Vec<Need>,
    section: Section,
    rows: &[Value],
) -> Result<(), AllocError>
    ensures { OnOk result (needs.new.items
        ≡ needs.old.items ++ from_row (need_row section) 0 (map view rows.now)) }
{
    for (row, value) in rows.iter().enumerate() {
        add_need(alloc, needs, section, row, value)?;
    }
    Ok(())
}

fn add_section(
    alloc: Global,
    needs: &mut Vec<Need>,
    table: &Table,
    section: Section,
) -> Result<(), AllocError>
    ensures { OnOk result (needs.new.items ≡ needs.old.items ++ section_needs (table_view table.now) section) }
{
    add_rows(alloc, needs, section, rows_at(table, section_key(section)))
}

fn add_sections(
    alloc: Global,
    needs: &mut Vec<Need>,
    table: &Table,
    sections: &[Section],
) -> Result<(), AllocError>
    ensures { OnOk result (needs.new.items
        ≡ needs.old.items ++ flat_map (section_needs (table_view table.now)) sections.now) }
{
    for section in sections {
        add_section(alloc, needs, table, *section)?;
    }
    Ok(())
}

/// All that the document asks for.
#[tactic(auto, unfolding(crate::specs::Reading::needs_of))]
pub(crate) fn needs_of(alloc: Global, table: &Table) -> Result<Needs, AllocError>
    ensures { IfOk result (λ n. n ≡ needs_of (table_view table.now)) }
{
    let mut rows = Vec::new(alloc);
    add_sections(alloc, &mut rows, table, sections())?;
    Ok(Needs {
        tick: tick_at(table),
        rows,
    })
}
