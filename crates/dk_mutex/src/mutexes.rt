ghost use Rattle.std.specs.Prelude.{◌≡◌, map};
ghost use Rattle.std.specs.List.{list_any};
ghost use Rattle.dk_mutex.specs.Rows.{freed, is_by, spent};

mod questions;

use crate::front::Front;
use crate::marks::{mark, may_hold};
use crate::outer::{Outer, again, enter, leave, newest};
use crate::row::{Holder, Lockable, free_row, is_by, lists_user};
use crate::rows::Rows;
use arrayvec::ArrayVec;
use dk_config::{Config, MAX_MUTEXES, MAX_PROCESSES};
use dk_trace::{Refusal, ThreadId};
use std::marker::Model;

/// Who holds each mutex. It is seen as the list of the mutexes by their rows, each with its ceiling,
/// its longest hold, its users and its holder with level and ticks left, if there is one. What a
/// thread has left of two mutexes differs, so that its innermost mutex is the one of the least.
#[derive(Drop)]
pub struct Mutexes {
    rows: Rows,
    front: Front,
    /// Who ran first before each lock, the newest last, as far as it is known: an unlock in turn asks no row who does.
    outers: ArrayVec<Outer, MAX_MUTEXES>,
    /// For each process whether one of its threads may hold a mutex: no row is asked of the others.
    marks: [bool; MAX_PROCESSES],
}

impl Model for Mutexes {
    ghost use Rattle.std.specs.Prelude.{List};
    ghost use Rattle.dk_mutex.specs.declared.row.Lockable.{Lockable};
    ghost use Rattle.dk_mutex.specs.Table.{LeftsDiffer};
    ghost use Rattle.dk_mutex.specs.Front.{AreOuter, IsFrontOf};
    ghost use Rattle.dk_mutex.specs.Marks.{AreMarked};

    ghost Value = { List Lockable };

    ghost view = { λ m. m.rows };

    ghost invariant = { λ m. LeftsDiffer m.rows × IsFrontOf m.front m.rows
        × AreMarked m.marks m.rows × AreOuter m.outers.items m.rows };
}

impl Mutexes {
    ghost use Rattle.std.specs.Prelude.{ℕ, ◌<◌, ◌||◌, length, nat_lt, None, false, true, IfOk, MatchOption, MatchResult};
    ghost use Rattle.dk_config.specs.Checked.{IsChecked, IsWithinLimits};
    ghost use Rattle.dk_mutex.specs.Rows.{rows_of};
    ghost use Rattle.dk_mutex.specs.Front.{IsLockable};
    ghost use Rattle.dk_mutex.specs.Table.{effective_level, given_to, hold_of, holds_within, is_free, lock_refusal, unlock_refusal};

    /// Nobody holds a mutex.
    pub fn at_start(config: &Config) -> Mutexes
        requires checked { IsChecked config.now }
        requires limits { IsWithinLimits config.now }
        ensures { result ≡ rows_of config.now }
    {
        let mut rows = ArrayVec::new();
        for mutex in 0..config.mutexes.len() {
            rows.push(free_row(config, mutex as u32));
        }
        Mutexes {
            rows: Rows::of(rows),
            front: Front::nobody(),
            outers: ArrayVec::new(),
            marks: [false; MAX_PROCESSES],
        }
    }

    /// The thread takes the mutex, for as many ticks as its longest hold, and is told its number.
    /// `body_left` is what the thread has left of its body in ticks. Refused is, in this order: a mutex that there is not, or
    /// whose users the process is not among; a mutex that the thread holds; a longest hold that is
    /// above `body_left`, or not below what is left of each mutex that the thread holds. No lock finds
    /// its mutex held: `is_free` tells whether it is.
    pub fn lock(
        &mut self,
        id: ThreadId,
        level: u8,
        mutex: u32,
        body_left: u32,
    ) -> Result<u8, Refusal>
        requires { lock_refusal id mutex body_left self.old ≡ None → is_free mutex self.old ≡ true }
        ensures answer { MatchResult result
            (λ number. (lock_refusal id mutex body_left self.old ≡ None)
            × (self.new
            ≡ given_to (Some (record { thread = id; level = level; left = hold_of self.old mutex })) mutex self.old))
            (λ refusal. (lock_refusal id mutex body_left self.old ≡ Some refusal) × (self.new ≡ self.old)) }
        ensures number { IfOk result (λ number. number ≡ mutex) }
    {
        match self.lock_refusal(id, mutex, body_left) {
            Some(refusal) => Err(refusal),
            None => {
                let number = self.rows.number(mutex);
                let left = self.rows.hold(mutex);
                let holder = Holder {
                    thread: id,
                    level,
                    left,
                };
                self.take(mutex, holder);
                Ok(number)
            },
        }
    }

    fn lock_refusal(&self, id: ThreadId, mutex: u32, body_left: u32) -> Option<Refusal>
        ensures refused { result ≡ lock_refusal id mutex body_left self.now }
        ensures known { result ≡ None → mutex < length self.now }
    {
        let row = match self.rows.row(mutex) {
            Some(row) => row,
            None => return Some(Refusal::NotUser),
        };
        if !lists_user(row, id.process) {
            return Some(Refusal::NotUser);
        }
        if is_by(row, id) {
            return Some(Refusal::Holding);
        }
        if self.leaves_too_little(id, row.hold, body_left) {
            return Some(Refusal::TooLittle);
        }
        None
    }

    /// Whether the hold is above what the thread has left of its body, or not below what it has left of each
    /// mutex that it holds.
    fn leaves_too_little(&self, id: ThreadId, hold: u32, body_left: u32) -> bool
        ensures { result ≡ (nat_lt body_left hold || holds_within id hold self.now) }
    {
        body_left < hold || self.holds_within(id, hold)
    }

    /// The thread holds the mutex from now on. Mostly it is the holder that runs first from then on, and no
    /// row has to be asked who is.
    fn take(&mut self, mutex: u32, holder: Holder)
        requires { IsLockable holder mutex self.old }
        ensures { self.new ≡ given_to (Some holder) mutex self.old }
    {
        let ceiling = self.rows.ceiling(mutex);
        self.rows.take(mutex, holder);
        mark(&mut self.marks, holder.thread.process, true);
        enter(&mut self.outers, mutex, &self.front);
        self.front = match self.front.locked(ceiling, &holder) {
            Some(front) => front,
            None => self.rows.front(),
        };
    }

    /// Nobody holds the mutex from now on, which a thread of the process held.
    fn free(&mut self, mutex: u32, process: u8)
        requires known { mutex < length self.old }
        ensures { self.new ≡ given_to None mutex self.old }
    {
        self.rows.free(mutex);
        let outer = leave(&mut self.outers, mutex);
        self.front = again(&mut self.rows, outer, newest(&self.outers));
        let marked = self.front.may_be_of(&self.rows, process);
        mark(&mut self.marks, process, marked);
    }

    /// The thread gives the mutex back, and is told its number. Refused is, in this order: a mutex that the thread does not
    /// hold, and one that is not its innermost.
    pub fn unlock(&mut self, id: ThreadId, mutex: u32) -> Result<u8, Refusal>
        ensures answer { MatchResult result
            (λ number. (unlock_refusal id mutex self.old ≡ None) × (self.new ≡ given_to None mutex self.old))
            (λ refusal. (unlock_refusal id mutex self.old ≡ Some refusal) × (self.new ≡ self.old)) }
        ensures number { IfOk result (λ number. number ≡ mutex) }
    {
        match self.unlock_refusal(id, mutex) {
            Some(refusal) => Err(refusal),
            None => {
                let number = self.rows.number(mutex);
                self.free(mutex, id.process);
                Ok(number)
            },
        }
    }

    fn unlock_refusal(&self, id: ThreadId, mutex: u32) -> Option<Refusal>
        ensures refused { result ≡ unlock_refusal id mutex self.now }
        ensures known { result ≡ None → mutex < length self.now }
    {
        let row = match self.rows.row(mutex) {
            Some(row) => row,
            None => return Some(Refusal::NotHeld),
        };
        if !is_by(row, id) {
            return Some(Refusal::NotHeld);
        }
        if !self.rows.is_within(mutex, id, self.hold_left(id)) {
            return Some(Refusal::NotLast);
        }
        None
    }

    /// Whether the thread may hold a mutex. Most that hold none are told from it.
    #[inline(always)]
    fn may_hold(&self, id: ThreadId) -> bool
        ensures { result ≡ false → list_any (is_by id) self.now ≡ false }
    {
        self.front.is_held() && may_hold(&self.marks, id)
    }

    /// One tick of the thread: it has one tick less left of each mutex that it holds.
    #[inline(always)]
    pub fn spend(&mut self, id: ThreadId)
        requires { holds_within id 0 self.old ≡ false }
        ensures { self.new ≡ map (spent id) self.old }
    {
        if self.may_hold(id) {
            self.front.spend(id);
            self.rows.spend(id);
        }
    }

    /// One tick of the thread, as `spend`, where it is the holder that runs first, with the level at which it runs. None
    /// where it isn't, and then nothing has changed.
    #[inline(always)]
    pub fn spend_first(&mut self, id: ThreadId) -> Option<u8>
        requires { holds_within id 0 self.old ≡ false }
        ensures { MatchOption result (self.new ≡ self.old)
            (λ level. ((own : ℕ) → level ≡ effective_level id own self.old) × (self.new ≡ map (spent id) self.old)) }
    {
        if self.front.is_of(id) {
            let level = self.front.level;
            self.front.spend(id);
            self.rows.spend(id);
            Some(level)
        } else {
            None
        }
    }

    /// Frees all that the thread holds, if anything.
    pub fn give_up(&mut self, id: ThreadId)
        ensures { self.new ≡ map (freed id) self.old }
    {
        if !self.may_hold(id) {
            return;
        }
        self.rows.free_all(id);
        self.outers.clear();
        self.front = self.rows.front();
    }
}
