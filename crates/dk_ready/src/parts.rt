use dk_overhead::Job;
use dk_steps::Steps;
use std::marker::Model;
use std::sync::ledger::Ledger;

/// The kernel's own part of each level in the level's present window, seen as the list of these jobs. They pay
/// no switches. It keeps in mind a level before which the kernel has nothing left.
#[derive(Drop)]
pub struct Parts {
    jobs: Vec<Job>,
    quiet: usize,
}

impl Model for Parts {
    ghost use Rattle.std.specs.Prelude.{◌≡◌, ◌<◌, ◌≤◌, List, get_or, length};
    ghost use Rattle.dk_trace.specs.Jobs.{Job};
    ghost use Rattle.dk_ready.specs.Roster.{AreQuiet};

    ghost Value = { List Job };

    ghost view = { λ p. p.jobs.items };

    ghost invariant = { λ p. (p.quiet ≤ length p.jobs.items) × AreQuiet p.quiet p.jobs.items };
}

impl Parts {
    ghost use Rattle.std.specs.Prelude.{◌≡◌, ◌+◌, ◌<◌, ◌≤◌, get_or, length, slice_set};
    ghost use Rattle.dk_trace.specs.Jobs.{rem};
    ghost use Rattle.dk_trace.specs.JobSteps.{spent};
    ghost use Rattle.dk_ready.specs.Roster.{AreQuiet, new_job};

    /// These parts, of the fastest level first.
    pub fn new(jobs: Vec<Job>) -> Parts
        ensures { result ≡ jobs.items }
    {
        Parts { jobs, quiet: 0 }
    }

    /// The number of levels.
    pub fn len(&self) -> usize
        ensures { result ≡ length self.now }
    {
        self.jobs.len()
    }

    /// The ticks that the kernel still has to do for the level. One step.
    pub fn left<L: Ledger>(&self, level: u8, steps: &mut Steps<L>) -> u32
        requires { level < length self.now }
        ensures left { result ≡ rem 0 (get_or self.now level (new_job 0)) }
        ensures steps { steps.new ≡ steps.old + 1 }
    {
        let part = &self.jobs[level as usize];
        part.rem(0, steps)
    }

    /// A window of the level begins, with so many ticks of release work.
    pub fn begin(&mut self, level: u8, release: u32)
        requires { level < length self.old }
        ensures { self.new ≡ slice_set self.old level (new_job release) }
    {
        self.jobs[level as usize] = Job::released(release);
        self.quiet = self.quiet.min(level as usize);
    }

    /// The kernel uses a tick of the level's part.
    pub fn spend(&mut self, level: u8)
        requires level { level < length self.old }
        requires left { 0 < rem 0 (get_or self.old level (new_job 0)) }
        ensures { self.new ≡ slice_set self.old level (spent 0 (get_or self.old level (new_job 0))) }
    {
        let part = &mut self.jobs[level as usize];
        part.spend(0);
    }

    /// A level before which the kernel has nothing left. It need not be the last such level.
    pub fn quiet(&self) -> usize
        ensures within { result ≤ length self.now }
        ensures quiet { AreQuiet result self.now }
    {
        self.quiet
    }

    /// Looks at one level more for `quiet`. At most one step.
    pub fn settle<L: Ledger>(&mut self, steps: &mut Steps<L>)
        ensures same { self.new ≡ self.old }
        ensures steps { steps.new ≤ steps.old + 1 }
    {
        if let Some(part) = self.jobs.get(self.quiet) {
            if part.rem(0, steps) == 0 {
                self.quiet += 1;
            }
        }
    }
}
