//! The rows of a picture. A row is a strip; what stands in it at a tick is one bar.
ghost use Rattle.std.specs.Prelude.{◌≡◌, ◌<◌, ◌^◌, IfSome, length, position, slice_get};
ghost use Rattle.dk_picture.specs.Rows.{row_at, takes, takes_thread};

use dk_trace::{Label, ThreadId};
use std::marker::Model;

/// A row of the picture.
#[derive(Clone, Copy)]
pub(crate) enum Row {
    /// The kernel's work, and no one's.
    Kernel,
    /// A thread.
    Thread(ThreadId),
    /// All children of a process.
    Children(u8),
}

fn takes_thread(row: Row, thread: ThreadId) -> bool
    ensures { result ≡ takes_thread row thread }
{
    match row {
        Row::Kernel => false,
        Row::Thread(own) => own.is_same(thread),
        Row::Children(process) => thread.process == process && thread.serial != 0,
    }
}

/// Whether ticks of the label stand in the row.
pub(crate) fn takes(row: Row, label: Label) -> bool
    ensures { result ≡ takes label row }
{
    match label {
        Label::Kernel(_) | Label::Idle => matches!(row, Row::Kernel),
        Label::In(thread)
        | Label::Run(thread)
        | Label::Call(thread)
        | Label::Out(thread)
        | Label::Slack { thread, .. } => takes_thread(row, thread),
    }
}

/// The rows of a picture, seen as their list.
#[derive(Drop)]
pub(crate) struct Rows {
    rows: Vec<Row>,
}

impl Model for Rows {
    ghost use Rattle.std.specs.Prelude.{List, length, ◌<◌, ◌^◌};
    ghost use Rattle.dk_picture.specs.declared.rows.Row.{Row};

    ghost Value = { List Row };

    ghost view = { λ r. r.rows.items };

    ghost invariant = { λ r. length r.rows.items < 2 ^ 16 };
}

impl Rows {
    /// These rows.
    pub(crate) fn new(rows: Vec<Row>) -> Rows
        requires { length rows.items < 2 ^ 16 }
        ensures { result ≡ rows.items }
    {
        Rows { rows }
    }

    pub(crate) fn as_slice(&self) -> &[Row]
        ensures rows { result.now ≡ self.now }
        ensures few { length result.now < 2 ^ 16 }
    {
        self.rows.as_slice()
    }

    /// How many they are.
    pub(crate) fn len(&self) -> u16
        ensures { result ≡ length self.now }
    {
        self.rows.len() as u16
    }

    /// The row of this number, where there is one.
    pub(crate) fn get(&self, place: u16) -> Option<Row>
        ensures { result ≡ slice_get self.now place }
    {
        match self.rows.as_slice().get(place as usize) {
            Some(row) => Some(*row),
            None => None,
        }
    }

    /// The number of the first row that takes the label.
    pub(crate) fn at(&self, label: Label) -> u16
        ensures { result ≡ row_at self.now label }
    {
        row_at(self.rows.as_slice(), label)
    }
}

fn position_of(rows: &[Row], label: Label) -> Option<usize>
    ensures found { result ≡ position (takes label) rows.now }
    ensures exists { IfSome result (λ i. i < length rows.now) }
{
    rows.iter().position(|row| takes(*row, label))
}

fn row_at(rows: &[Row], label: Label) -> u16
    requires { length rows.now < 2 ^ 16 }
    ensures { result ≡ row_at rows.now label }
{
    match position_of(rows, label) {
        Some(row) => row as u16,
        None => 0,
    }
}
