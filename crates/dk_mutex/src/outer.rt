//! Who ran first before each lock, kept as a stack, so that an unlock in turn asks no row who does.
ghost use Rattle.std.specs.Prelude.{◌≡◌, None, Some, List, IfSome};
ghost use Rattle.dk_trace.specs.declared.ThreadId.{ThreadId};
ghost use Rattle.dk_mutex.specs.declared.row.Lockable.{Lockable};
ghost use Rattle.dk_mutex.specs.Front.{AreOuter, IsFirst, IsFrontOf, IsInnermost, IsNewest};
ghost use Rattle.dk_mutex.specs.Table.{given_to, hold_left};

use crate::front::Front;
use crate::rows::Rows;
use arrayvec::ArrayVec;
use dk_config::MAX_MUTEXES;
use dk_trace::ThreadId;

/// Who ran first before a mutex was locked.
#[derive(Clone, Copy, Default)]
pub struct Outer {
    /// That mutex, by its row.
    pub mutex: u32,
    /// A level before which no holder ran.
    pub level: u8,
    /// The holder that ran there. None where nobody held a mutex.
    pub holder: Option<ThreadId>,
}

/// The mutex is about to be locked. Where there is no room for one more, those before are forgotten.
pub fn enter(outers: &mut ArrayVec<Outer, MAX_MUTEXES>, mutex: u32, front: &Front)
    ensures { (rows next : List Lockable) → AreOuter outers.old.items rows → IsFrontOf front.now rows
        → given_to None mutex next ≡ rows → IsInnermost mutex next → AreOuter outers.new.items next }
{
    if outers.is_full() {
        outers.clear();
    }
    outers.push(Outer {
        mutex,
        level: front.level,
        holder: front.holder,
    });
}

/// Who ran first before the mutex was locked, where it is the newest of these locks. Else all are forgotten.
pub fn leave(outers: &mut ArrayVec<Outer, MAX_MUTEXES>, mutex: u32) -> Option<Outer>
    ensures outers { (rows : List Lockable) → AreOuter outers.old.items rows
        → AreOuter outers.new.items (given_to None mutex rows) }
    ensures first { (rows : List Lockable) → AreOuter outers.old.items rows
        → IfSome result (λ outer. IsFirst outer.level outer.holder (given_to None mutex rows)) }
{
    if let Some(outer) = outers.pop() {
        if outer.mutex == mutex {
            return Some(outer);
        }
    }
    outers.clear();
    None
}

/// The mutex of the newest of these locks.
#[inline(always)]
pub fn newest(outers: &ArrayVec<Outer, MAX_MUTEXES>) -> Option<u32>
    ensures { (rows : List Lockable) → AreOuter outers.now.items rows → IsNewest result rows }
{
    match outers.as_slice().last() {
        Some(outer) => Some(outer.mutex),
        None => None,
    }
}

/// Who runs first of those that hold one of the mutexes, where it may be known.
pub fn again(rows: &mut Rows, outer: Option<Outer>, newest: Option<u32>) -> Front
    requires first { IfSome outer (λ outer. IsFirst outer.level outer.holder rows.old) }
    requires newest { IsNewest newest rows.old }
    ensures rows { rows.new ≡ rows.old }
    ensures front { IsFrontOf result rows.new }
{
    match outer {
        Some(Outer { level, holder, .. }) => Front {
            level,
            holder,
            left: left_of_holder(rows, holder, newest),
        },
        None => rows.front(),
    }
}

/// What the holder has left of its innermost mutex. Mostly that is the newest one.
fn left_of_holder(rows: &Rows, holder: Option<ThreadId>, newest: Option<u32>) -> u32
    requires { IsNewest newest rows.now }
    ensures { (x : ThreadId) → holder ≡ Some x → result ≡ hold_left x rows.now }
{
    match holder {
        Some(id) => left_of_innermost(rows, id, newest),
        None => 0,
    }
}

/// What the thread has left of its innermost mutex. Mostly that is the newest one.
fn left_of_innermost(rows: &Rows, id: ThreadId, newest: Option<u32>) -> u32
    requires { IsNewest newest rows.now }
    ensures { result ≡ hold_left id rows.now }
{
    if let Some(mutex) = newest {
        if let Some(left) = rows.left_at(mutex, id) {
            return left;
        }
    }
    rows.hold_left(id)
}
