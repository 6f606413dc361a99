//! How many processes are told what.
ghost use Rattle.std.specs.Prelude.{◌≡◌, filter, length};
ghost use Rattle.show_impact.specs.ImpactText.{how_many, how_many_gone, how_many_later, how_many_sooner, how_many_unknown, is_alone, is_changed, is_gone, is_if_it_waits, is_new, is_open, is_told_same, is_unknown};
ghost use Rattle.show_impact.specs.Impacts.{is_same, is_there};

use crate::{CertifiedLoad, Impact, Row};
use dk_config::{Config, ProcessRow, Text, has_process};

pub(crate) fn is_same(row: &Row) -> bool
    ensures { result ≡ is_same row.now.impact }
{
    matches!(row.impact, Impact::Same)
}

fn is_told_same(row: &Row) -> bool
    ensures { result ≡ is_told_same row.now.impact }
{
    matches!(row.impact, Impact::Same | Impact::Waits)
}

fn is_changed(row: &Row) -> bool
    ensures { result ≡ is_changed row.now.impact }
{
    matches!(row.impact, Impact::Program | Impact::Changed)
}

fn is_open(row: &Row) -> bool
    ensures { result ≡ is_open row.now.impact }
{
    matches!(row.impact, Impact::Open(_))
}

fn is_new(row: &Row) -> bool
    ensures { result ≡ is_new row.now.impact }
{
    matches!(row.impact, Impact::New)
}

fn is_alone(row: &Row) -> bool
    ensures { result ≡ is_alone row.now.impact }
{
    matches!(row.impact, Impact::PeriodAlone)
}

fn is_if_it_waits(row: &Row) -> bool
    ensures { result ≡ is_if_it_waits row.now.impact }
{
    matches!(row.impact, Impact::IfItWaits(_))
}

pub(crate) fn how_many_alone(rows: &[Row]) -> usize
    ensures { result ≡ how_many is_alone rows.now }
{
    rows.iter().filter(|row| is_alone(row)).count()
}

pub(crate) fn how_many_if_it_waits(rows: &[Row]) -> usize
    ensures { result ≡ how_many is_if_it_waits rows.now }
{
    rows.iter().filter(|row| is_if_it_waits(row)).count()
}

pub(crate) fn how_many_later(rows: &[Row]) -> usize
    ensures { result ≡ how_many_later rows.now }
{
    rows.iter().filter(|row| row.before < row.after).count()
}

pub(crate) fn how_many_sooner(rows: &[Row]) -> usize
    ensures { result ≡ how_many_sooner rows.now }
{
    rows.iter().filter(|row| row.after < row.before).count()
}

pub(crate) fn how_many_same(rows: &[Row]) -> usize
    ensures { result ≡ how_many is_told_same rows.now }
{
    rows.iter().filter(|row| is_told_same(row)).count()
}

pub(crate) fn how_many_changed(rows: &[Row]) -> usize
    ensures { result ≡ how_many is_changed rows.now }
{
    rows.iter().filter(|row| is_changed(row)).count()
}

pub(crate) fn how_many_open(rows: &[Row]) -> usize
    ensures { result ≡ how_many is_open rows.now }
{
    rows.iter().filter(|row| is_open(row)).count()
}

pub(crate) fn how_many_new(rows: &[Row]) -> usize
    ensures { result ≡ how_many is_new rows.now }
{
    rows.iter().filter(|row| is_new(row)).count()
}

/// Whether a process of the configuration has the name.
pub(crate) fn is_there(config: &Config, name: &str) -> bool
    ensures { result ≡ is_there config.now name.now }
{
    has_process(config.processes.as_slice(), name)
}

fn is_gone(new: &Config, row: &ProcessRow) -> bool
    ensures { result ≡ is_gone new.now row.now }
{
    !is_there(new, row.name.as_str())
}

fn gone_among(new: &Config, rows: &[ProcessRow]) -> usize
    ensures { result ≡ length (filter (is_gone new.now) rows.now) }
{
    rows.iter().filter(|row| is_gone(new, row)).count()
}

pub(crate) fn how_many_gone(old: &CertifiedLoad, new: &CertifiedLoad) -> usize
    ensures { result ≡ how_many_gone old.now.config new.now.config }
{
    gone_among(new.config(), old.config().processes.as_slice())
}

/// Whether no process of either configuration has the name.
pub(crate) fn is_unknown(old: &Config, new: &Config, name: &str) -> bool
    ensures { result ≡ is_unknown old.now new.now name.now }
{
    !is_there(new, name) && !is_there(old, name)
}

pub(crate) fn how_many_unknown(old: &Config, new: &Config, names: &[Text]) -> usize
    ensures { result ≡ how_many_unknown old.now new.now names.now }
{
    names
        .iter()
        .filter(|name| is_unknown(old, new, name.as_str()))
        .count()
}
