ghost use Rattle.std.specs.Prelude.{◌≡◌, ◌<◌, if◌then◌else◌, length, map, max};
ghost use Rattle.std.specs.List.{list_any};
ghost use Rattle.dk_config.specs.Windows.{ceiling};
ghost use Rattle.dk_trace.specs.Entries.{is_same};
ghost use Rattle.dk_mutex.specs.Rows.{ceiling_of, freed, is_by, is_by_process, is_held_at, is_holder, is_other_at, is_within_owed, joined, left_of, left_under, lists_user, row_of, taken, users_of};

use dk_config::{Config, MAX_PROCESSES};
use dk_trace::ThreadId;

/// A thread that holds a mutex.
#[derive(Clone, Copy, PartialEq, Eq)]
pub struct Holder {
    pub thread: ThreadId,
    /// The thread's own level.
    pub level: u8,
    /// For how many ticks more it may hold the mutex.
    pub left: u32,
}

/// A mutex, by its row in the configuration.
#[derive(Clone, Copy, Default, PartialEq, Eq)]
pub struct Lockable {
    /// The level at which a holder runs.
    pub ceiling: u8,
    /// The most ticks for which a thread may hold it.
    pub hold: u32,
    /// For each process, by its row, whether its threads may lock it.
    pub users: [bool; MAX_PROCESSES],
    pub holder: Option<Holder>,
}

/// For each process whether it is among the users of the mutex.
fn users_of(config: &Config, mutex: u32) -> [bool; MAX_PROCESSES]
    ensures { result ≡ users_of config.now mutex }
{
    let mut users = [false; MAX_PROCESSES];
    for process in 0..MAX_PROCESSES {
        users[process] = config.is_user(mutex, process as u32);
    }
    users
}

/// The mutex of that row, which nobody holds.
pub fn free_row(config: &Config, mutex: u32) -> Lockable
    requires known { mutex < length config.now.mutexes }
    requires few { ceiling config.now mutex < 256 }
    ensures { result ≡ row_of config.now mutex }
{
    let users = users_of(config, mutex);
    let row = &config.mutexes[mutex as usize];
    Lockable {
        ceiling: row.ceiling as u8,
        hold: row.hold,
        users,
        holder: None,
    }
}

/// Whether the threads of the process may lock the mutex.
pub fn lists_user(row: &Lockable, process: u8) -> bool
    ensures { result ≡ lists_user row.now process }
{
    match row.users.get(process as usize) {
        Some(listed) => *listed,
        None => false,
    }
}

/// Whether the holder is the thread. Its numbers are read where they lie: a copy takes more instructions.
#[inline(always)]
pub fn is_same(id: ThreadId, holder: &ThreadId) -> bool
    ensures { result ≡ is_same id holder.now }
{
    id.process == holder.process && id.serial == holder.serial
}

/// Whether the thread holds the mutex.
pub fn is_by(row: &Lockable, id: ThreadId) -> bool
    ensures { result ≡ is_by id row.now }
{
    match &row.holder {
        Some(holder) => is_same(id, &holder.thread),
        None => false,
    }
}

/// Whether a thread of the process holds one of the mutexes.
pub fn is_any_of_process(rows: &[Lockable], process: u8) -> bool
    ensures { result ≡ list_any (is_by_process process) rows.now }
{
    rows.iter().any(|row| is_by_process(row, process))
}

/// Whether a thread of the process holds the mutex.
fn is_by_process(row: &Lockable, process: u8) -> bool
    ensures { result ≡ is_by_process process row.now }
{
    match row.holder {
        Some(holder) => holder.thread.process == process,
        None => false,
    }
}

/// Whether anybody holds a mutex of that ceiling.
pub fn is_any_held_at(rows: &[Lockable], level: u8) -> bool
    ensures { result ≡ list_any (is_held_at level) rows.now }
{
    rows.iter().any(|row| is_held_at(row, level))
}

/// Whether anybody holds the mutex, and its ceiling is the level.
fn is_held_at(row: &Lockable, level: u8) -> bool
    ensures { result ≡ is_held_at level row.now }
{
    row.ceiling == level && row.holder.is_some()
}

/// Whether another thread holds a mutex of that ceiling.
pub fn is_any_other_at(rows: &[Lockable], level: u8, id: ThreadId) -> bool
    ensures { result ≡ list_any (is_other_at level id) rows.now }
{
    rows.iter().any(|row| is_other_at(row, level, id))
}

/// Whether another thread holds the mutex, and its ceiling is the level.
fn is_other_at(row: &Lockable, level: u8, id: ThreadId) -> bool
    ensures { result ≡ is_other_at level id row.now }
{
    row.ceiling == level && row.holder.is_some() && !is_by(row, id)
}

/// Whether the thread holds the mutex, for at most so many ticks more than it owes.
pub fn is_within(row: &Lockable, id: ThreadId, most: u32, owed: u32) -> bool
    ensures { result ≡ is_within_owed id most owed row.now }
{
    match left_of(row, id) {
        Some(left) => left.saturating_sub(owed) <= most,
        None => false,
    }
}

/// For how many ticks more the thread may hold the mutex, where it does.
pub fn left_of(row: &Lockable, id: ThreadId) -> Option<u32>
    ensures { result ≡ left_of id row.now }
{
    match &row.holder {
        Some(holder) if is_same(id, &holder.thread) => Some(holder.left),
        _ => None,
    }
}

/// The mutex's ceiling, where the thread holds it.
pub fn ceiling_of(row: &Lockable, id: ThreadId) -> Option<u8>
    ensures { result ≡ ceiling_of id row.now }
{
    if is_by(row, id) {
        Some(row.ceiling)
    } else {
        None
    }
}

/// So many ticks of the thread.
fn take_ticks(row: &mut Lockable, id: ThreadId, ticks: u32)
    ensures { row.new ≡ taken ticks id row.old }
{
    if let Some(holder) = &mut row.holder {
        if id.is_same(holder.thread) {
            holder.left = holder.left.saturating_sub(ticks);
        }
    }
}

/// The holder where it is another thread, else nobody.
fn unless_by(holder: Option<Holder>, id: ThreadId) -> Option<Holder>
    ensures { result ≡ (if is_holder id holder then None else holder) }
{
    match holder {
        Some(holder) if id.is_same(holder.thread) => None,
        other => other,
    }
}

/// So many ticks of the thread, in all mutexes. Few ticks come here, so it stands apart from them.
#[inline(never)]
pub fn take_all(rows: &mut [Lockable], id: ThreadId, ticks: u32)
    ensures { rows.new ≡ map (taken ticks id) rows.old }
{
    for row in rows.iter_mut() {
        take_ticks(row, id, ticks);
    }
}

/// The thread holds nothing from now on.
pub fn free_all(rows: &mut [Lockable], id: ThreadId)
    ensures { rows.new ≡ map (freed id) rows.old }
{
    for row in rows.iter_mut() {
        row.holder = unless_by(row.holder, id);
    }
}

/// The lesser of two numbers that may be absent.
pub fn joined_ticks(one: Option<u32>, other: Option<u32>) -> Option<u32>
    ensures { result ≡ joined one other }
{
    match (one, other) {
        (Some(a), Some(b)) => Some(a.min(b)),
        (Some(a), None) => Some(a),
        (None, b) => b,
    }
}

/// The lesser of two levels that may be absent.
pub fn joined_levels(one: Option<u8>, other: Option<u8>) -> Option<u8>
    ensures { result ≡ joined one other }
{
    match (one, other) {
        (Some(a), Some(b)) => Some(a.min(b)),
        (Some(a), None) => Some(a),
        (None, b) => b,
    }
}

/// For how many ticks more the thread may hold the mutex, where it does and the ceiling is at most
/// the level, else 0.
pub fn left_under(row: &Lockable, id: ThreadId, level: u8) -> u32
    ensures { result ≡ left_under id level row.now }
{
    match left_of(row, id) {
        Some(left) if row.ceiling <= level => left,
        _ => 0,
    }
}

/// The greater of two numbers.
pub fn greater(one: u32, other: u32) -> u32
    ensures { result ≡ max one other }
{
    if one < other { other } else { one }
}
