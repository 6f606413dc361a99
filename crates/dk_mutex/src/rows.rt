//! The mutexes by their rows, of which the ticks of the thread that ran last are owed.
ghost use Rattle.std.specs.Prelude.{◌≡◌, ◌<◌, map, length, Some, None, MatchOption, slice_get};
ghost use Rattle.std.specs.List.{list_any, position_from};
ghost use Rattle.dk_mutex.specs.declared.row.Lockable.{Lockable};
ghost use Rattle.dk_mutex.specs.Rows.{freed, is_by_process, is_within, least, left_up_to, ceiling_of, spent};
ghost use Rattle.dk_mutex.specs.Table.{at_row, ceiling_at, given_to, hold_left, hold_of, holder_at, holds_within, left_at};
ghost use Rattle.dk_mutex.specs.Front.{IsFrontOf, IsRow};

use crate::front::{Front, holder_among, least_ceiling, least_left};
use crate::owing::{first_within, is_any_within, left_up_to, owed_by, pay};
use crate::row::{Holder, Lockable, free_all, is_any_of_process, is_same, is_within, left_of};
use arrayvec::ArrayVec;
use dk_config::MAX_MUTEXES;
use dk_trace::ThreadId;
use std::marker::Model;

/// The mutexes by their rows. The ticks that one thread runs in turn are counted here, and taken from the rows where
/// another one runs: a tick of a thread that ran last goes over no rows. They are seen with all ticks taken.
#[derive(Drop)]
pub struct Rows {
    rows: ArrayVec<Lockable, MAX_MUTEXES>,
    debtor: ThreadId,
    owed: u32,
}

impl Model for Rows {
    ghost use Rattle.std.specs.Prelude.{List, map};
    ghost use Rattle.dk_mutex.specs.declared.row.Lockable.{Lockable};
    ghost use Rattle.dk_mutex.specs.Rows.{taken};

    ghost Value = { List Lockable };

    ghost view = { λ r. map (taken r.owed r.debtor) r.rows.items };
}

impl Rows {
    /// Those rows, of which nothing is owed.
    pub fn of(rows: ArrayVec<Lockable, MAX_MUTEXES>) -> Rows
        ensures { result ≡ rows.items }
    {
        Rows {
            rows,
            debtor: ThreadId {
                process: 0,
                serial: 0,
            },
            owed: 0,
        }
    }

    /// The mutex of that row, if there is one. What its holder has left of it may be more than is seen.
    #[inline(always)]
    pub fn row(&self, mutex: u32) -> Option<&Lockable>
        ensures { MatchOption result (slice_get self.now mutex ≡ None) (λ row. IsRow row.now mutex self.now) }
    {
        self.rows.get(mutex as usize)
    }

    /// The number of a mutex that is there, as an event has it: there are at most 16.
    #[inline(always)]
    pub fn number(&self, mutex: u32) -> u8
        requires { mutex < length self.now }
        ensures { result ≡ mutex }
    {
        prove!((mutex as usize) < self.rows.len());
        mutex as u8
    }

    /// The longest hold of the mutex.
    #[inline(always)]
    pub fn hold(&self, mutex: u32) -> u32
        requires { mutex < length self.now }
        ensures { result ≡ hold_of self.now mutex }
    {
        self.rows[mutex as usize].hold
    }

    /// The ceiling of the mutex.
    #[inline(always)]
    pub fn ceiling(&self, mutex: u32) -> u8
        requires { mutex < length self.now }
        ensures { result ≡ ceiling_at self.now mutex }
    {
        self.rows[mutex as usize].ceiling
    }

    /// The holder has the mutex from now on.
    #[inline(always)]
    pub fn take(&mut self, mutex: u32, holder: Holder)
        requires { mutex < length self.old }
        ensures { self.new ≡ given_to (Some holder) mutex self.old }
    {
        let mut left = holder.left;
        if is_same(holder.thread, &self.debtor) && self.owed <= u32::MAX - holder.left {
            left = holder.left + self.owed;
        } else {
            pay(self.rows.as_mut_slice(), self.debtor, &mut self.owed);
        }
        self.rows[mutex as usize].holder = Some(Holder {
            thread: holder.thread,
            level: holder.level,
            left,
        });
    }

    /// Nobody holds the mutex from now on.
    #[inline(always)]
    pub fn free(&mut self, mutex: u32)
        requires { mutex < length self.old }
        ensures { self.new ≡ given_to None mutex self.old }
    {
        self.rows[mutex as usize].holder = None;
    }

    /// A tick of the thread.
    #[inline(always)]
    pub fn spend(&mut self, id: ThreadId)
        ensures { self.new ≡ map (spent id) self.old }
    {
        if is_same(id, &self.debtor) && self.owed < u32::MAX {
            self.owed += 1;
        } else {
            pay(self.rows.as_mut_slice(), self.debtor, &mut self.owed);
            self.debtor = id;
            self.owed = 1;
        }
    }

    /// The thread holds nothing from now on.
    pub fn free_all(&mut self, id: ThreadId)
        ensures { self.new ≡ map (freed id) self.old }
    {
        pay(self.rows.as_mut_slice(), self.debtor, &mut self.owed);
        free_all(self.rows.as_mut_slice(), id);
    }

    /// Who runs first of those that hold a mutex.
    pub fn front(&mut self) -> Front
        ensures rows { self.new ≡ self.old }
        ensures front { IsFrontOf result self.new }
    {
        pay(self.rows.as_mut_slice(), self.debtor, &mut self.owed);
        Front::of(self.rows.as_slice())
    }

    /// For how many ticks more the thread may hold the mutex, where it does.
    #[inline(always)]
    pub fn left_at(&self, mutex: u32, id: ThreadId) -> Option<u32>
        ensures { result ≡ left_at id self.now mutex }
    {
        match self.rows.get(mutex as usize) {
            Some(row) => match left_of(row, id) {
                Some(left) => Some(left.saturating_sub(owed_by(id, &self.debtor, self.owed))),
                None => None,
            },
            None => None,
        }
    }

    /// For how many ticks more the thread may hold its innermost mutex, and 0 where it holds nothing.
    pub fn hold_left(&self, id: ThreadId) -> u32
        ensures { result ≡ hold_left id self.now }
    {
        least_left(self.rows.as_slice(), id).saturating_sub(owed_by(id, &self.debtor, self.owed))
    }

    /// The least ceiling of the mutexes that the thread holds. None where it holds nothing.
    pub fn least_ceiling(&self, id: ThreadId) -> Option<u8>
        ensures { result ≡ least (map (ceiling_of id) self.now) }
    {
        least_ceiling(self.rows.as_slice(), id)
    }

    /// The holder that runs at the level; of several, that of the first mutex by row. None where no holder runs there.
    pub fn holder_at(&self, level: u8) -> Option<ThreadId>
        ensures { result ≡ holder_at level self.now }
    {
        holder_among(self.rows.as_slice(), level)
    }

    /// Whether a thread of the process holds one of the mutexes.
    pub fn is_any_of_process(&self, process: u8) -> bool
        ensures { result ≡ list_any (is_by_process process) self.now }
    {
        is_any_of_process(self.rows.as_slice(), process)
    }

    /// The first mutex that the thread holds for at most so many ticks more, by its row.
    #[inline(always)]
    pub fn first_within(&self, id: ThreadId, most: u32) -> Option<u8>
        ensures { result ≡ position_from (is_within id most) 0 self.now }
    {
        first_within(&self.rows, id, most, owed_by(id, &self.debtor, self.owed))
    }

    /// Whether the thread holds the mutex for at most so many ticks more.
    #[inline(always)]
    pub fn is_within(&self, mutex: u32, id: ThreadId, most: u32) -> bool
        ensures { result ≡ at_row (is_within id most) self.now mutex }
    {
        match self.rows.get(mutex as usize) {
            Some(row) => is_within(row, id, most, owed_by(id, &self.debtor, self.owed)),
            None => false,
        }
    }

    /// Whether the thread holds one of the mutexes for at most so many ticks more.
    pub fn is_any_within(&self, id: ThreadId, most: u32) -> bool
        ensures { result ≡ holds_within id most self.now }
    {
        is_any_within(
            self.rows.as_slice(),
            id,
            most,
            owed_by(id, &self.debtor, self.owed),
        )
    }

    /// For how many ticks more the thread may hold, at most, a mutex whose ceiling is at most the level.
    pub fn left_up_to(&self, id: ThreadId, level: u8) -> u32
        ensures { result ≡ left_up_to id level self.now }
    {
        left_up_to(self.rows.as_slice(), id, level).saturating_sub(owed_by(
            id,
            &self.debtor,
            self.owed,
        ))
    }
}
