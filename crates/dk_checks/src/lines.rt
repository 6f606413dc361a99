//! The lines of levels and threads.
use arrayvec::ArrayVec;
use dk_trace::{Phase, ThreadId};
use std::fmt;

/// No level has more threads than these: 32 processes of nine.
pub const MOST_READY: usize = 288;

/// A thread by the numbers of its process and its own.
#[derive(Clone, Copy, Default)]
pub struct Name {
    process: u8,
    serial: u32,
}

impl From<ThreadId> for Name {
    fn from(id: ThreadId) -> Name {
        Name {
            process: id.process,
            serial: id.serial,
        }
    }
}

impl fmt::Display for Name {
    fn fmt<W: fmt::Write>(&self, f: &mut fmt::Formatter<W>) -> fmt::Result {
        write!(f, "{}.{}", self.process, self.serial)
    }
}

/// A level: the holder that runs there, and its ready queue from the front on.
#[derive(Drop)]
pub struct LevelLine {
    pub level: u8,
    pub holder: Option<Name>,
    pub ready: ArrayVec<Name, MOST_READY>,
}

impl fmt::Display for LevelLine {
    fn fmt<W: fmt::Write>(&self, f: &mut fmt::Formatter<W>) -> fmt::Result {
        write!(f, "level {} holder ", self.level)?;
        match self.holder {
            Some(name) => write!(f, "{name}")?,
            None => write!(f, "none")?,
        }
        write!(f, " ready")?;
        for name in self.ready.iter() {
            write!(f, " {name}")?;
        }
        Ok(())
    }
}

/// A thread: its job and its wish.
#[derive(Clone, Copy)]
pub struct ThreadLine {
    pub id: ThreadId,
    pub rem: u32,
    pub phase: Option<Phase>,
    pub want: u32,
    pub entering: bool,
}

impl fmt::Display for ThreadLine {
    fn fmt<W: fmt::Write>(&self, f: &mut fmt::Formatter<W>) -> fmt::Result {
        let phase = match self.phase {
            Some(Phase::In) => "in",
            Some(Phase::Body) => "body",
            Some(Phase::Out) => "out",
            None => "none",
        };
        let entering = if self.entering { " entering" } else { "" };
        write!(
            f,
            "thread {} rem {} phase {phase} want {}{entering}",
            Name::from(self.id),
            self.rem,
            self.want
        )
    }
}
