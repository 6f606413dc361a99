use super::Mutexes;
use dk_trace::ThreadId;

impl Mutexes {
    ghost use Rattle.std.specs.Prelude.{ℕ, ◌≡◌, ◌<◌, IfSome, None, Some, map, true};
    ghost use Rattle.dk_trace.specs.declared.ThreadId.{ThreadId};
    ghost use Rattle.dk_mutex.specs.Rows.{left_up_to, spent};
    ghost use Rattle.dk_mutex.specs.Front.{RunsFirst};
    ghost use Rattle.dk_mutex.specs.Table.{LeftsDiffer, effective_level, hold_left, holder_at, holds_within, innermost, is_free, left_at};

    /// Whether nobody holds the mutex. It is so of a number that names no mutex.
    pub fn is_free(&self, mutex: u32) -> bool
        ensures { result ≡ is_free mutex self.now }
    {
        match self.rows.row(mutex) {
            Some(row) => row.holder.is_none(),
            None => true,
        }
    }

    /// Whether nobody holds a mutex. Then each thread runs at its own level, and a tick changes nothing here.
    #[inline(always)]
    pub fn are_free(&self) -> bool
        ensures levels { (x : ThreadId) (own : ℕ) → result ≡ true → effective_level x own self.now ≡ own }
        ensures holds { (x : ThreadId) → result ≡ true → map (spent x) self.now ≡ self.now }
        ensures left { (x : ThreadId) → result ≡ true → hold_left x self.now ≡ 0 }
    {
        !self.front.is_held()
    }

    /// The innermost mutex of the thread, by its row: the one of which it has the least left. None
    /// where it holds nothing.
    #[inline(always)]
    pub fn held_by(&self, id: ThreadId) -> Option<u8>
        ensures innermost { result ≡ innermost id self.now }
        ensures alone { (m : ℕ) → left_at id self.now m ≡ Some (hold_left id self.now) → result ≡ Some m }
        ensures apart { LeftsDiffer self.now }
    {
        self.rows.first_within(id, self.hold_left(id))
    }

    /// For how many ticks more the thread may hold its innermost mutex, and 0 where it holds nothing.
    #[inline(always)]
    pub fn hold_left(&self, id: ThreadId) -> u32
        ensures left { result ≡ hold_left id self.now }
        ensures apart { LeftsDiffer self.now }
    {
        // Mostly the thread is the holder that runs first, or holds nothing.
        if self.front.is_of(id) {
            return self.front.left;
        }
        if !self.may_hold(id) {
            return 0;
        }
        self.rows.hold_left(id)
    }

    /// The level at which the thread runs: the least ceiling of the mutexes that it holds, and `own`
    /// where it holds nothing.
    #[inline(always)]
    pub fn effective_level(&self, id: ThreadId, own: u8) -> u8
        ensures { result ≡ effective_level id own self.now }
    {
        if self.front.is_of(id) {
            return self.front.level;
        }
        if !self.may_hold(id) {
            return own;
        }
        self.rows.least_ceiling(id).unwrap_or(own)
    }

    /// The level at which the thread runs, where no row has to be asked whether another holder runs at that level or
    /// before it, and none does. `own` is the level at which it runs where it holds nothing.
    #[inline(always)]
    pub fn lead_level(&self, id: ThreadId, own: u8) -> Option<u8>
        ensures { IfSome result (λ level. RunsFirst id own level self.now) }
    {
        if self.front.level > own {
            Some(own)
        } else if self.front.is_of(id) {
            Some(self.front.level)
        } else {
            None
        }
    }

    /// For how many ticks more the thread may hold, at most, a mutex whose ceiling is at most the level;
    /// 0 where it holds none.
    pub fn left_up_to(&self, id: ThreadId, level: u8) -> u32
        ensures { result ≡ left_up_to id level self.now }
    {
        self.rows.left_up_to(id, level)
    }

    /// A level before which no holder runs. It need not be the last such level.
    #[inline(always)]
    pub fn quiet(&self) -> u8
        ensures { (k : ℕ) → k < result → holder_at k self.now ≡ None }
    {
        self.front.level
    }

    /// The holder that runs at the level; of several, that of the first mutex by row. None where no
    /// holder runs there.
    #[inline(always)]
    pub fn holder_at(&self, level: u8) -> Option<ThreadId>
        ensures { result ≡ holder_at level self.now }
    {
        if level == self.front.level {
            self.front.holder
        } else if level > self.front.level && self.front.is_held() {
            self.rows.holder_at(level)
        } else {
            None
        }
    }

    /// Whether the thread holds a mutex for at most so many ticks more.
    pub fn holds_within(&self, id: ThreadId, most: u32) -> bool
        ensures { result ≡ holds_within id most self.now }
    {
        if self.front.is_of(id) {
            return self.front.left <= most;
        }
        if !self.may_hold(id) {
            return false;
        }
        self.rows.is_any_within(id, most)
    }
}
