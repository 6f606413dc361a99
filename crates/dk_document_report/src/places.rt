//! Where in a document a thing stands.
ghost use Rattle.std.specs.Prelude.{ℕ, ◌≡◌, ◌≤◌, ◌<◌, ◌-◌, ◌&&◌, Bool, List, length, string_bytes, true, IfOk, Some};
ghost use Rattle.toml.specs.View.{table_view, view};
ghost use Rattle.dk_config.specs.declared.TheConstants.{MAX_CONFIG_BYTES};
ghost use Rattle.dk_loader.specs.Reading.{document};
ghost use Rattle.dk_document_report.specs.Expressions.{AreEnds, IsExpression, start_of, stop_of};
ghost use Rattle.dk_document_report.specs.Standing.{Decides, IsFirstWord, IsPlaceText, IsPlaced, IsReachedIn, IsSearch, IsWithin, is_blank, key_stands, place_text, row_has, stands, stands_by, told_key};

use crate::findings::Finding;
use crate::looks::{find, is_top, key_name, row_in};
use crate::place::{Place, place_after};
use crate::reading::table_of;
use dk_config::{NoMemory, Section};
use std::alloc::{AllocError, Global};
use toml::{Table, Value};

/// Whether a row is a table with this key, or no table.
pub fn row_has(key: &str, row: &Value) -> bool
    ensures { result ≡ row_has key.now (view row.now) }
{
    match row.as_table() {
        Some(table) => find(table, key).is_some(),
        None => true,
    }
}

fn key_stands(table: &Table, section: Section, row: u32, key: &str) -> bool
    ensures { result ≡ key_stands section row key.now (table_view table.now) }
{
    if is_top(section) {
        return find(table, key).is_some();
    }
    match row_in(table, section, row) {
        Some(row) => row_has(key, row),
        None => false,
    }
}

fn told_key(told: &Finding) -> &str
    ensures { result.now ≡ told_key told.now }
{
    if told.fault.number == 1 {
        told.key.as_str()
    } else {
        key_name(told.fault.field)
    }
}

/// Whether what a line is about stands in the document.
fn stands(table: &Table, told: &Finding) -> bool
    ensures { result ≡ stands told.now (table_view table.now) }
{
    if told.fault.number == 2 {
        row_in(table, told.fault.section, told.fault.row).is_some()
    } else {
        key_stands(table, told.fault.section, told.fault.row, told_key(told))
    }
}

/// Whether the bytes are a document in which it stands.
fn stands_by(alloc: Global, bytes: &[u8], told: &Finding) -> Result<bool, NoMemory>
    ensures { IfOk result (λ found. found ≡ stands_by told.now bytes.now) }
{
    match table_of(alloc, bytes)? {
        Some(table) => Ok(stands(&table, told)),
        None => Ok(false),
    }
}

/// A part of a document, its first byte and the first one behind it.
#[derive(Clone, Copy)]
pub struct Piece {
    pub start: usize,
    pub stop: usize,
}

/// A search for an expression, from number `low` up to `high`.
#[derive(Clone, Copy)]
pub struct Search {
    pub low: usize,
    pub high: usize,
}

/// The search with at most half of the expressions left.
fn halved<F: Fn(&[u8]) -> Result<bool, NoMemory>>(
    bytes: &[u8],
    ends: &[usize],
    test: &F,
    search: Search,
) -> Result<Search, NoMemory>
    requires callable { F.IsAlwaysCallable test.now }
    requires ends { AreEnds bytes.now ends.now }
    requires within { IsWithin ends.now search }
    requires left { search.low < search.high }
    ensures within { IfOk result (IsWithin ends.now) }
    ensures less { IfOk result (λ s. s.high - s.low < search.high - search.low) }
    ensures search { (reached : List ℕ → Bool) → Decides (F.post test.now) reached
        → IsSearch bytes.now ends.now reached search → IfOk result (IsSearch bytes.now ends.now reached) }
{
    let Search { low, high } = search;
    let middle = low + (high - low) / 2;
    let stop = ends[middle];
    if test(&bytes[..stop])? {
        return Ok(Search { low, high: middle });
    }
    Ok(Search {
        low: middle + 1,
        high,
    })
}

/// Where expression `k` starts, by the ends of all but the last.
fn start_at(ends: &[usize], k: usize) -> usize
    requires { k ≤ length ends.now }
    ensures { result ≡ start_of ends.now k }
{
    if k == 0 { 0 } else { ends[k - 1] }
}

/// Where expression `k` ends.
fn stop_at(bytes: &[u8], ends: &[usize], k: usize) -> usize
    requires { k ≤ length ends.now }
    ensures { result ≡ stop_of bytes.now ends.now k }
{
    if k < ends.len() { ends[k] } else { bytes.len() }
}

/// The expression that brings what is looked for.
pub(crate) fn piece_of<F: Fn(&[u8]) -> Result<bool, NoMemory>>(
    bytes: &[u8],
    ends: &[usize],
    test: F,
) -> Result<Piece, NoMemory>
    requires callable { F.IsAlwaysCallable test }
    requires ends { AreEnds bytes.now ends.now }
    ensures is { IfOk result (λ p. IsExpression bytes.now p.start p.stop) }
    ensures found { (reached : List ℕ → Bool) → Decides (F.post test) reached → reached bytes.now ≡ true
        → IfOk result (λ p. IsReachedIn bytes.now reached p.start p.stop) }
{
    let mut search = Search {
        low: 0,
        high: ends.len(),
    };
    while search.low < search.high {
        search = halved(bytes, ends, &test, search)?;
    }
    Ok(Piece {
        start: start_at(ends, search.low),
        stop: stop_at(bytes, ends, search.low),
    })
}

fn is_blank(byte: u8) -> bool
    ensures { result ≡ is_blank byte }
{
    byte == b' ' || byte == b'\t' || byte == b'\r' || byte == b'\n'
}

/// The first byte of a part that is no blank.
fn first_word(bytes: &[u8], piece: Piece) -> usize
    requires order { piece.start ≤ piece.stop }
    requires within { piece.stop ≤ length bytes.now }
    ensures { IsFirstWord bytes.now piece.start piece.stop result }
{
    for i in piece.start..piece.stop {
        if !is_blank(bytes[i]) {
            return i;
        }
    }
    piece.stop
}

fn place_text(alloc: Global, place: Place) -> Result<String, AllocError>
    ensures { IfOk result (λ s. string_bytes s ≡ place_text place) }
{
    let line = place.line;
    let column = place.column;
    format!(in alloc; "line {line} column {column}: ")
}

/// The place where the expression begins that brings what is looked for: `test` tells of the bytes up to a place whether it
/// is reached there. The ends are those of all expressions of the document but the last. `Err` is what the test answers, or
/// want of memory.
pub fn find_place<F: Fn(&[u8]) -> Result<bool, NoMemory>>(
    alloc: Global,
    bytes: &[u8],
    ends: &[usize],
    test: F,
) -> Result<String, NoMemory>
    requires callable { F.IsAlwaysCallable test }
    requires few { length bytes.now ≤ MAX_CONFIG_BYTES }
    requires ends { AreEnds bytes.now ends.now }
    ensures { (reached : List ℕ → Bool) → Decides (F.post test) reached → reached bytes.now ≡ true
        → IfOk result (λ s. IsPlaced bytes.now reached (string_bytes s)) }
{
    let piece = piece_of(bytes, ends, test)?;
    let at = first_word(bytes, piece);
    let place = place_after(&bytes[..at]);
    Ok(place_text(alloc, place)?)
}

fn found_place(
    alloc: Global,
    bytes: &[u8],
    ends: &[usize],
    told: &Finding,
) -> Result<String, NoMemory>
    requires few { length bytes.now ≤ MAX_CONFIG_BYTES }
    requires ends { AreEnds bytes.now ends.now }
    requires stands { stands_by told.now bytes.now ≡ true }
    ensures { IfOk result (λ s. IsPlaced bytes.now (stands_by told.now) (string_bytes s)) }
{
    find_place(alloc, bytes, ends, |part| stands_by(alloc, part, told))
}

fn has_place(table: &Table, asked: bool, told: &Finding) -> bool
    ensures { result ≡ (asked && stands told.now (table_view table.now)) }
{
    asked && stands(table, told)
}

/// The place of what a line is about, where it is asked for and there is one.
pub(crate) fn place_of(
    alloc: Global,
    bytes: &[u8],
    table: &Table,
    ends: &[usize],
    asked: bool,
    told: &Finding,
) -> Result<String, NoMemory>
    requires few { length bytes.now ≤ MAX_CONFIG_BYTES }
    requires read { document bytes.now ≡ Some (table_view table.now) }
    requires ends { AreEnds bytes.now ends.now }
    ensures { IfOk result (λ s. IsPlaceText bytes.now (table_view table.now) asked told.now (string_bytes s)) }
{
    if !has_place(table, asked, told) {
        return Ok(String::new(alloc));
    }
    let text = found_place(alloc, bytes, ends, told)?;
    Ok(text)
}
