//! What is counted of the groups.
ghost use Rattle.std.specs.Prelude.{◌≡◌, ◌<◌, ◌^◌, length};
ghost use Rattle.dk_picture.specs.Columns.{column_sum, column_weight, is_idle, is_same_sort, is_slack, sort_of, sort_sum, sort_weight, weight};

use crate::rows::{Row, takes};
use dk_ledger::LedgerLine;
use dk_trace::{Event, Label};

/// A column of the rows.
#[derive(Clone, Copy)]
pub(crate) enum Column {
    /// All ticks but no one's.
    Ticks,
    /// Those of slack.
    Slack,
    /// Calls that were refused.
    Refused,
    /// Faults.
    Faults,
}

/// A sort of ticks.
#[derive(Clone, Copy)]
pub(crate) enum Sort {
    /// The kernel's own work.
    Kernel,
    /// Of a thread, on a budget.
    Budget,
    /// Of a thread, on slack.
    Slack,
    /// No one's.
    Idle,
}

fn sort_of(label: Label) -> Sort
    ensures { result ≡ sort_of label }
{
    match label {
        Label::Kernel(_) => Sort::Kernel,
        Label::In(_) | Label::Run(_) | Label::Call(_) | Label::Out(_) => Sort::Budget,
        Label::Slack { .. } => Sort::Slack,
        Label::Idle => Sort::Idle,
    }
}

fn is_same_sort(a: Sort, b: Sort) -> bool
    ensures { result ≡ is_same_sort a b }
{
    match (a, b) {
        (Sort::Kernel, Sort::Kernel)
        | (Sort::Budget, Sort::Budget)
        | (Sort::Slack, Sort::Slack)
        | (Sort::Idle, Sort::Idle) => true,
        _ => false,
    }
}

/// The group's ticks, where they are of the sort.
fn sort_weight(sort: Sort, group: &LedgerLine) -> u32
    ensures { result ≡ sort_weight sort group.now }
{
    if is_same_sort(sort_of(group.label), sort) {
        group.count
    } else {
        0
    }
}

/// The ticks of the sort.
pub(crate) fn sort_sum(groups: &[LedgerLine], sort: Sort) -> u64
    requires { length groups.now < 2 ^ 16 }
    ensures { result ≡ sort_sum groups.now sort }
{
    let mut sum = 0;
    for group in groups {
        sum += sort_weight(sort, group) as u64;
    }
    sum
}

pub(crate) fn is_idle(label: Label) -> bool
    ensures { result ≡ is_idle label }
{
    matches!(label, Label::Idle)
}

fn is_slack(label: Label) -> bool
    ensures { result ≡ is_slack label }
{
    matches!(label, Label::Slack { .. })
}

/// What the group adds to the column.
fn weight(column: Column, group: &LedgerLine) -> u32
    ensures { result ≡ weight column group.now }
{
    match column {
        Column::Ticks => { if is_idle(group.label) { 0 } else { group.count } }
        Column::Slack => {
            if is_slack(group.label) {
                group.count
            } else {
                0
            }
        }
        Column::Refused => match group.event {
            Some(Event::Refused(_)) => 1,
            _ => 0,
        },
        Column::Faults => match group.event {
            Some(Event::Fault(_)) => 1,
            _ => 0,
        },
    }
}

/// What the group adds to the row's column.
fn column_weight(column: Column, row: Row, group: &LedgerLine) -> u32
    ensures { result ≡ column_weight column row group.now }
{
    if takes(row, group.label) {
        weight(column, group)
    } else {
        0
    }
}

/// The row's number in the column.
pub(crate) fn column_sum(groups: &[LedgerLine], row: Row, column: Column) -> u64
    requires { length groups.now < 2 ^ 16 }
    ensures { result ≡ column_sum groups.now row column }
{
    let mut sum = 0;
    for group in groups {
        sum += column_weight(column, row, group) as u64;
    }
    sum
}
