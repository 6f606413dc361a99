//! Who runs first of those that hold a mutex.
ghost use Rattle.std.specs.Prelude.{◌≡◌, ◌<◌, ◌∷◌, ◌++◌, [], List, None, Some, is_some, false, map, true};
ghost use Rattle.std.specs.List.{list_any};
ghost use Rattle.dk_trace.specs.declared.ThreadId.{ThreadId};
ghost use Rattle.dk_trace.specs.Entries.{is_same};
ghost use Rattle.dk_mutex.specs.declared.row.Lockable.{Lockable};
ghost use Rattle.dk_mutex.specs.Rows.{ceiling_of, is_by_process, is_held, joined, least, left_of, spent};
ghost use Rattle.dk_mutex.specs.Table.{hold_left, holder_at};
ghost use Rattle.dk_mutex.specs.Front.{IsFirstHold, IsFrontOf, KeepsFront};

use crate::row::{
    Holder, Lockable, ceiling_of, is_any_held_at, is_any_other_at, is_same, joined_levels,
    joined_ticks, left_of,
};
use crate::rows::Rows;
use dk_trace::ThreadId;

/// A level before which no holder runs, the holder that runs there, and what it has left of its innermost mutex.
/// It is worked out where a mutex changes hands, so that a tick asks few rows.
#[derive(Clone, Copy)]
pub struct Front {
    pub level: u8,
    /// None where nobody holds a mutex.
    pub holder: Option<ThreadId>,
    /// For how many ticks more that holder may hold its innermost mutex; 0 where there is no holder.
    pub left: u32,
}

/// What is read of the first of the mutexes of the least ceiling that are held.
#[derive(Clone, Copy)]
pub struct FirstHold {
    pub ceiling: u8,
    pub thread: ThreadId,
}

impl Front {
    /// That of mutexes which nobody holds.
    pub fn nobody() -> Front
        ensures { (rows : List Lockable) → list_any is_held rows ≡ false → IsFrontOf result rows }
    {
        Front {
            level: u8::MAX,
            holder: None,
            left: 0,
        }
    }

    /// Whether anybody holds a mutex.
    #[inline(always)]
    pub fn is_held(&self) -> bool
        ensures { result ≡ is_some self.now.holder }
    {
        self.holder.is_some()
    }

    /// Whether the thread is that holder.
    #[inline(always)]
    pub fn is_of(&self, id: ThreadId) -> bool
        ensures own { result ≡ true → self.now.holder ≡ Some id }
        ensures other { (x : ThreadId) → result ≡ false → self.now.holder ≡ Some x → is_same id x ≡ false }
    {
        match &self.holder {
            Some(holder) => is_same(id, holder),
            None => false,
        }
    }

    /// That of these mutexes.
    #[inline(always)]
    pub fn of(rows: &[Lockable]) -> Front
        ensures { IsFrontOf result rows.now }
    {
        match first_hold(rows) {
            Some(first) => {
                let holder = holder_at_first(rows, first);
                Front {
                    level: first.ceiling,
                    holder,
                    left: left_of_holder(rows, holder),
                }
            },
            None => Front::nobody(),
        }
    }

    /// Whether a thread of the process holds one of the mutexes; mostly who runs first tells it.
    pub fn may_be_of(&self, rows: &Rows, process: u8) -> bool
        requires { is_some self.now.holder ≡ list_any is_held rows.now }
        ensures { result ≡ false → list_any (is_by_process process) rows.now ≡ false }
    {
        match self.holder {
            Some(holder) => holder.process == process || rows.is_any_of_process(process),
            None => false,
        }
    }

    /// That of the mutexes once the thread has locked one of the ceiling, where no row has to be asked for it:
    /// where the ceiling is below the level, and where the thread is the one that runs first already.
    pub fn locked(&self, ceiling: u8, holder: &Holder) -> Option<Front>
        ensures { KeepsFront self.now ceiling holder.now result }
    {
        if ceiling < self.level || self.is_of(holder.thread) {
            Some(Front {
                level: self.level.min(ceiling),
                holder: Some(holder.thread),
                left: holder.left,
            })
        } else {
            None
        }
    }

    /// A tick of the thread.
    #[inline(always)]
    pub fn spend(&mut self, id: ThreadId)
        ensures { (rows : List Lockable) → IsFrontOf self.old rows → IsFrontOf self.new (map (spent id) rows) }
    {
        if self.is_of(id) {
            self.left = self.left.saturating_sub(1);
        }
    }
}

/// The first of the mutexes of the least ceiling that are held. None where none is.
fn first_hold(rows: &[Lockable]) -> Option<FirstHold>
    ensures { IsFirstHold result rows.now }
{
    let mut first = None;
    for row in rows {
        join_hold(&mut first, row);
    }
    first
}

/// The same of one mutex more. It is changed in place, so that a mutex which nobody holds costs nothing.
#[inline(always)]
fn join_hold(first: &mut Option<FirstHold>, row: &Lockable)
    ensures { (rows : List Lockable) → IsFirstHold first.old rows → IsFirstHold first.new (rows ++ row.now ∷ []) }
{
    let Some(holder) = row.holder else {
        return;
    };
    if let Some(hold) = *first {
        if hold.ceiling <= row.ceiling {
            return;
        }
    }
    *first = Some(FirstHold {
        ceiling: row.ceiling,
        thread: holder.thread,
    });
}

/// For how many ticks more the thread may hold its innermost mutex, and 0 where it holds nothing.
pub fn least_left(rows: &[Lockable], id: ThreadId) -> u32
    ensures { result ≡ hold_left id rows.now }
{
    let mut least = None;
    for row in rows {
        join_left(&mut least, row, id);
    }
    match least {
        Some(left) => left,
        None => 0,
    }
}

/// The lesser of that number and of the ticks for which the thread may hold one mutex more, where it does.
#[inline(always)]
fn join_left(least: &mut Option<u32>, row: &Lockable, id: ThreadId)
    ensures { least.new ≡ joined least.old (left_of id row.now) }
{
    if let Some(left) = left_of(row, id) {
        *least = joined_ticks(*least, Some(left));
    }
}

/// What the holder has left of its innermost mutex.
fn left_of_holder(rows: &[Lockable], holder: Option<ThreadId>) -> u32
    ensures { (x : ThreadId) → holder ≡ Some x → result ≡ hold_left x rows.now }
{
    match holder {
        Some(id) => least_left(rows, id),
        None => 0,
    }
}

/// The holder that runs at the least ceiling.
fn holder_at_first(rows: &[Lockable], first: FirstHold) -> Option<ThreadId>
    requires { IsFirstHold (Some first) rows.now }
    ensures { result ≡ holder_at first.ceiling rows.now }
{
    // Mostly one thread holds all that is held of that ceiling, and then no other ceiling matters.
    if is_any_other_at(rows, first.ceiling, first.thread) {
        holder_among(rows, first.ceiling)
    } else {
        Some(first.thread)
    }
}

/// The least ceiling of the mutexes that the thread holds. None where it holds nothing.
pub fn least_ceiling(rows: &[Lockable], id: ThreadId) -> Option<u8>
    ensures { result ≡ least (map (ceiling_of id) rows.now) }
{
    let mut least = None;
    for row in rows {
        join_ceiling(&mut least, row, id);
    }
    least
}

/// The lesser of that level and of the ceiling of one mutex more, where the thread holds it.
#[inline(always)]
fn join_ceiling(least: &mut Option<u8>, row: &Lockable, id: ThreadId)
    ensures { least.new ≡ joined least.old (ceiling_of id row.now) }
{
    if let Some(ceiling) = ceiling_of(row, id) {
        *least = joined_levels(*least, Some(ceiling));
    }
}

/// The holder that runs at the level; of several, that of the first mutex by row. None where no holder runs
/// there.
pub fn holder_among(rows: &[Lockable], level: u8) -> Option<ThreadId>
    ensures { result ≡ holder_at level rows.now }
{
    // Whoever runs at the level holds a mutex of that ceiling.
    if !is_any_held_at(rows, level) {
        return None;
    }
    for row in rows {
        if let Some(holder) = row.holder {
            if least_ceiling(rows, holder.thread).unwrap_or(holder.level) == level {
                return Some(holder.thread);
            }
        }
    }
    None
}
