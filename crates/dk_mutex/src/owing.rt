//! The ticks that a thread owes to the mutexes that it holds.
ghost use Rattle.std.specs.Prelude.{◌≡◌, map};
ghost use Rattle.std.specs.List.{list_any, position_from};
ghost use Rattle.dk_mutex.specs.Rows.{is_within_owed, left_up_to, owed_by, taken};

use crate::row::{Lockable, greater, is_same, is_within, left_under, take_all};
use arrayvec::ArrayVec;
use dk_config::MAX_MUTEXES;
use dk_trace::ThreadId;

/// So many of the ticks as are of the thread.
#[inline(always)]
pub fn owed_by(id: ThreadId, debtor: &ThreadId, owed: u32) -> u32
    ensures { result ≡ owed_by id debtor.now owed }
{
    if is_same(id, debtor) { owed } else { 0 }
}

/// Takes what is owed from the rows.
#[inline(always)]
pub fn pay(rows: &mut [Lockable], debtor: ThreadId, owed: &mut u32)
    ensures rows { rows.new ≡ map (taken owed.old debtor) rows.old }
    ensures owed { owed.new ≡ 0 }
{
    if *owed > 0 {
        take_all(rows, debtor, *owed);
        *owed = 0;
    }
}

/// The first mutex that the thread holds for at most so many ticks more than it owes.
pub fn first_within(
    rows: &ArrayVec<Lockable, MAX_MUTEXES>,
    id: ThreadId,
    most: u32,
    owed: u32,
) -> Option<u8>
    ensures { result ≡ position_from (is_within_owed id most owed) 0 rows.now.items }
{
    for mutex in 0..rows.len() {
        if is_within(&rows[mutex], id, most, owed) {
            return Some(mutex as u8);
        }
    }
    None
}

/// Whether the thread holds one of these mutexes for at most so many ticks more than it owes.
pub fn is_any_within(rows: &[Lockable], id: ThreadId, most: u32, owed: u32) -> bool
    ensures { result ≡ list_any (is_within_owed id most owed) rows.now }
{
    rows.iter().any(|row| is_within(row, id, most, owed))
}

/// For how many ticks more the thread may hold, at most, one of these mutexes whose ceiling is at most the level.
pub fn left_up_to(rows: &[Lockable], id: ThreadId, level: u8) -> u32
    ensures { result ≡ left_up_to id level rows.now }
{
    let mut most = 0;
    for row in rows {
        most = greater(most, left_under(row, id, level));
    }
    most
}
