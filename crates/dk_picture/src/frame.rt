//! Where the rows of a picture stand, in pixels from the top.
ghost use Rattle.std.specs.Prelude.{◌≡◌, ◌<◌, ◌^◌};
ghost use Rattle.dk_picture.specs.Frames.{bottom_of, head_of, height_of, level_top, mutex_top, quiet_foot, quiet_lines, top_of};

/// How many levels, rows of threads, mains without a tick and rows of mutexes the picture has.
#[derive(Clone, Copy)]
pub(crate) struct Frame {
    pub(crate) levels: u8,
    pub(crate) rows: u16,
    pub(crate) quiet: u8,
    pub(crate) mutexes: u8,
}

/// Where the windows of the level are.
pub(crate) fn level_top(level: u8) -> u64
    ensures value { result ≡ level_top level }
    ensures small { result < 2 ^ 16 }
{
    50 + 16 * level as u64
}

impl Frame {
    /// Where the heads of the rows' columns are.
    pub(crate) fn head(self) -> u64
        ensures value { result ≡ head_of self }
        ensures small { result < 2 ^ 16 }
    {
        56 + 16 * self.levels as u64
    }

    /// The top of the row's bars.
    pub(crate) fn top(self, row: u16) -> u64
        ensures value { result ≡ top_of self row }
        ensures small { result < 2 ^ 32 }
    {
        self.head() + 22 + 38 * row as u64
    }

    /// How many lines the names of mains without a tick take.
    fn quiet_lines(self) -> u64
        ensures value { result ≡ quiet_lines self }
        ensures small { result < 2 ^ 16 }
    {
        if self.quiet == 0 {
            0
        } else {
            (self.quiet as u64 + 12) / 12
        }
    }

    /// The foot of the first of these lines.
    pub(crate) fn quiet_foot(self) -> u64
        ensures value { result ≡ quiet_foot self }
        ensures small { result < 2 ^ 32 }
    {
        self.head() + 24 + 38 * self.rows as u64
    }

    /// The top of a mutex's bars.
    pub(crate) fn mutex_top(self, row: u8) -> u64
        ensures value { result ≡ mutex_top self row }
        ensures small { result < 2 ^ 32 }
    {
        self.head() + 18 + 38 * self.rows as u64 + 16 * self.quiet_lines() + 16 * row as u64
    }

    /// Where the axis is.
    pub(crate) fn bottom(self) -> u64
        ensures value { result ≡ bottom_of self }
        ensures small { result < 2 ^ 32 }
    {
        self.head()
            + 16
            + 38 * self.rows as u64
            + 16 * self.quiet_lines()
            + 16 * self.mutexes as u64
    }

    /// The height of the whole picture.
    pub(crate) fn height(self) -> u64
        ensures { result ≡ height_of self }
    {
        self.bottom() + 68
    }
}
