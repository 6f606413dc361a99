//! The searches for the cycles of a run and of each of its processes, by stretches of ticks.
ghost use Rattle.std.specs.Prelude.{[], ◌∷◌, ◌≡◌, ◌+◌, ◌%◌, ◌≤◌, ◌<◌, All, length, map, slice_index_or, true, false, None, is_some, IfOk, OnOk};
ghost use Rattle.dk_config.specs.declared.TheConstants.{MAX_TICKS};
ghost use Rattle.dk_cycle.specs.Own.{IsOwnSearch};
ghost use Rattle.dk_cycle.specs.Seeking.{IsDone};
ghost use Rattle.dk_kernel.specs.Booting.{IsLoaded};
ghost use Rattle.dk_repeat_search.specs.Searching.{AreOwn, HasLookedBefore, HasOtherNow, IsOtherNow, LooksFor, MayPass, begun, process_of};

use crate::states::{main_state, run_state};
use dk_config::{MAX_TICKS, NoMemory};
use dk_cycle::{OwnSearch, ProcessState, RunSearch, found_law, stretch_law};
use dk_cycle_start::{SecondPass, go_quietly, programs_of, reader_of};
use dk_kernel::Kernel;
use dk_loader::{Code, Loaded};
use dk_steps::Steps;
use dk_trace::{Entry, ThreadId};
use std::alloc::Global;
use std::sync::ledger::Ledger;

/// The searches for the cycle of a run, and for those of its processes, in the order of their rows.
#[derive(Drop)]
pub(crate) struct Searches {
    pub(crate) run: RunSearch,
    pub(crate) own: Vec<OwnSearch>,
    /// The programs of the run, in which a call that reads the tick is looked up.
    pub(crate) programs: Vec<Code>,
}

/// The bytes of the process's program, before the first tick.
fn program_of(loaded: &Loaded, process: usize) -> &[u8]
    ensures { result.now ≡ slice_index_or loaded.now.programs process [] }
{
    match loaded.programs.get(process) {
        Some(program) => program.bytes(),
        None => &[],
    }
}

/// The search for the cycle of each process, before the first tick.
fn own_searches(alloc: Global, loaded: &Loaded) -> Result<Vec<OwnSearch>, NoMemory>
    requires { IsLoaded loaded.now }
    ensures is { IfOk result (λ own. AreOwn loaded.now.config loaded.now.programs 0 own.items) }
    ensures looked { IfOk result (λ own. All (HasLookedBefore (begun loaded.now) 0) own.items) }
{
    let mut own = Vec::new(alloc);
    for process in 0..loaded.config.processes.len() {
        let program = program_of(loaded, process);
        let search = OwnSearch::new(&loaded.config, process as u8, program);
        own.push(search)?;
    }
    Ok(own)
}

/// Whether no search looks for anything any more.
fn are_done(own: &[OwnSearch]) -> bool
    ensures { result ≡ true → All IsDone own.now }
{
    for search in own {
        if !search.is_done() {
            return false;
        }
    }
    true
}

fn lesser(one: u32, other: u32) -> u32
    ensures one { result ≤ one }
    ensures other { result ≤ other }
    ensures some { 1 ≤ one → 1 ≤ other → 1 ≤ result }
{
    if one < other { one } else { other }
}

/// Whether the process may be what it was at the tick that is kept, or is to be kept as it is now: nothing is copied for it.
fn is_worth(search: &OwnSearch, kernel: &Kernel, tick: u32) -> bool
    requires { tick ≡ kernel.now.ticks }
    ensures { result ≡ false → MayPass kernel.now search.now }
{
    let process = search.process;
    if search.is_due(tick) {
        return true;
    }
    let Some(context) = kernel.context(ThreadId { process, serial: 0 }) else {
        return true;
    };
    let Some(words) = kernel.memory(process) else {
        return true;
    };
    search.had(&context, words)
}

/// Looks at what the process is now, where a window of its main begins.
fn look_now(
    search: &mut OwnSearch,
    alloc: Global,
    kernel: &Kernel,
    tick: u32,
) -> Result<(), NoMemory>
    requires own { IsOwnSearch kernel.now.config kernel.now.programs kernel.now.ticks search.old }
    requires tick { tick ≡ kernel.now.ticks }
    requires begins { tick % search.old.period ≡ 0 }
    requires each { length kernel.now.programs ≡ length kernel.now.config.processes }
    requires looked { HasLookedBefore kernel.now kernel.now.ticks search.old }
    ensures own { OnOk result (IsOwnSearch kernel.now.config kernel.now.programs kernel.now.ticks search.new) }
    ensures looked { OnOk result (HasLookedBefore kernel.now (kernel.now.ticks + 1) search.new) }
    ensures same { OnOk result (search.new.process ≡ search.old.process) }
{
    found_law();
    kernel.dispatcher();
    if !is_worth(search, kernel, tick) {
        return Ok(());
    }
    match main_state(alloc, kernel, search.process)? {
        None => Ok(()),
        Some(now) => {
            search.look(now);
            Ok(())
        }
    }
}

/// The same, where its cycle isn't found and one begins. Answers in how many ticks the next one begins, or many where nothing is
/// looked for.
fn look_at(
    search: &mut OwnSearch,
    alloc: Global,
    kernel: &Kernel,
    tick: u32,
) -> Result<u32, NoMemory>
    requires own { IsOwnSearch kernel.now.config kernel.now.programs kernel.now.ticks search.old }
    requires tick { tick ≡ kernel.now.ticks }
    requires each { length kernel.now.programs ≡ length kernel.now.config.processes }
    requires looked { HasLookedBefore kernel.now kernel.now.ticks search.old }
    ensures own { OnOk result (IsOwnSearch kernel.now.config kernel.now.programs kernel.now.ticks search.new) }
    ensures looked { IfOk result (λ wait. LooksFor kernel.now wait search.new) }
    ensures same { OnOk result (search.new.process ≡ search.old.process) }
    ensures later { IfOk result (λ wait. 1 ≤ wait) }
{
    found_law();
    if search.is_done() {
        return Ok(MAX_TICKS);
    }
    let wait = search.wait(tick);
    if wait == search.period {
        look_now(search, alloc, kernel, tick)?;
        return Ok(wait);
    }
    Ok(wait)
}

/// Looks at the present tick, process by process. Answers in how many ticks the next window begins in which something is looked
/// for.
fn look_all(
    own: &mut Vec<OwnSearch>,
    alloc: Global,
    kernel: &Kernel,
    tick: u32,
) -> Result<u32, NoMemory>
    requires own { All (IsOwnSearch kernel.now.config kernel.now.programs kernel.now.ticks) own.old.items }
    requires tick { tick ≡ kernel.now.ticks }
    requires each { length kernel.now.programs ≡ length kernel.now.config.processes }
    requires looked { All (HasLookedBefore kernel.now kernel.now.ticks) own.old.items }
    ensures own { OnOk result (All (IsOwnSearch kernel.now.config kernel.now.programs kernel.now.ticks) own.new.items) }
    ensures looked { IfOk result (λ wait. All (LooksFor kernel.now wait) own.new.items) }
    ensures same { OnOk result (map process_of own.new.items ≡ map process_of own.old.items) }
    ensures later { IfOk result (λ wait. 1 ≤ wait) }
{
    let mut least = MAX_TICKS;
    for search in own.iter_mut() {
        least = lesser(least, look_at(search, alloc, kernel, tick)?);
    }
    Ok(least)
}

/// Whether the process may be what it was then: its memory, and the context of its main.
fn may_be(state: &ProcessState, kernel: &Kernel, process: u8) -> bool
    ensures { result ≡ false → IsOtherNow kernel.now process state.now }
{
    let Some(context) = kernel.context(ThreadId { process, serial: 0 }) else {
        return true;
    };
    let Some(words) = kernel.memory(process) else {
        return true;
    };
    state.had(&context, words)
}

/// Whether each process may be what it was then.
fn all_may_be(states: &[ProcessState], kernel: &Kernel, processes: u8) -> bool
    requires { processes ≡ length kernel.now.config.processes }
    ensures { result ≡ false → HasOtherNow kernel.now states.now }
{
    for process in 0..processes {
        if let Some(state) = states.get(process as usize) {
            if !may_be(state, kernel, process) {
                return false;
            }
        }
    }
    true
}

impl Searches {
    ghost use Rattle.dk_kernel.specs.Running.{trace_of};
    ghost use Rattle.std.specs.Prelude.{ℕ};
    ghost use Rattle.dk_repeat_search.specs.Searching.{AllLookFor, HasLookedAtRunBefore, HasSettled, HaveEnded, HaveLooked, IsSearching, LooksAtRunFor, MayPassRun, begun, loaded_of};
    ghost use Rattle.dk_cycle_start.specs.Passes.{IsPass};

    /// The searches before the first tick.
    pub(crate) fn of(alloc: Global, loaded: &Loaded) -> Result<Searches, NoMemory>
        requires { IsLoaded loaded.now }
        ensures is { IfOk result (IsSearching (begun loaded.now)) }
        ensures looked { IfOk result (HaveLooked (begun loaded.now) 0) }
    {
        Ok(Searches {
            run: RunSearch::new(&loaded.config),
            own: own_searches(alloc, loaded)?,
            programs: programs_of(alloc, loaded.programs.as_slice())?,
        })
    }

    /// Whether the run may be what it was at the tick that is kept, or is to be kept as it is now: nothing is copied for it.
    fn is_worth(&self, kernel: &Kernel, tick: u32, processes: u8) -> bool
        requires tick { tick ≡ kernel.now.ticks }
        requires all { processes ≡ length kernel.now.config.processes }
        ensures { result ≡ false → MayPassRun kernel.now self.now.run }
    {
        if self.run.is_due(tick) {
            return true;
        }
        match &self.run.saved {
            None => true,
            Some(saved) => {
                self.run.kept && all_may_be(saved.processes.as_slice(), kernel, processes)
            }
        }
    }

    /// Looks at what the run is now, where the windows of all levels begin.
    fn look_now(&mut self, alloc: Global, kernel: &Kernel, tick: u32) -> Result<(), NoMemory>
        requires is { IsSearching kernel.now self.old }
        requires tick { tick ≡ kernel.now.ticks }
        requires begins { tick % self.old.run.longest ≡ 0 }
        requires looked { HasLookedAtRunBefore kernel.now kernel.now.ticks self.old.run }
        ensures is { OnOk result (IsSearching kernel.now self.new) }
        ensures looked { OnOk result (HasLookedAtRunBefore kernel.now (kernel.now.ticks + 1) self.new.run) }
        ensures own { OnOk result (self.new.own.items ≡ self.old.own.items) }
    {
        found_law();
        kernel.dispatcher();
        let processes = self.own.len() as u8;
        if !self.is_worth(kernel, tick, processes) {
            return Ok(());
        }
        match run_state(alloc, kernel, processes)? {
            None => Ok(()),
            Some(now) => {
                self.run.look(now);
                Ok(())
            }
        }
    }

    /// The same, where its cycle isn't found and they begin. Answers in how many ticks they begin next, or many where nothing is
    /// looked for.
    fn look_at_run(&mut self, alloc: Global, kernel: &Kernel, tick: u32) -> Result<u32, NoMemory>
        requires is { IsSearching kernel.now self.old }
        requires tick { tick ≡ kernel.now.ticks }
        requires looked { HasLookedAtRunBefore kernel.now kernel.now.ticks self.old.run }
        ensures is { OnOk result (IsSearching kernel.now self.new) }
        ensures looked { IfOk result (λ wait. LooksAtRunFor kernel.now wait self.new.run) }
        ensures own { OnOk result (self.new.own.items ≡ self.old.own.items) }
        ensures later { IfOk result (λ wait. 1 ≤ wait) }
    {
        found_law();
        if self.run.is_done() {
            return Ok(MAX_TICKS);
        }
        let wait = self.run.wait(tick);
        if wait == self.run.longest {
            self.look_now(alloc, kernel, tick)?;
            return Ok(wait);
        }
        Ok(wait)
    }

    /// Looks at the present tick. Answers in how many ticks the next one comes at which something is looked for.
    pub(crate) fn look(&mut self, alloc: Global, kernel: &Kernel) -> Result<u32, NoMemory>
        requires is { IsSearching kernel.now self.old }
        requires looked { HaveLooked kernel.now kernel.now.ticks self.old }
        ensures is { OnOk result (IsSearching kernel.now self.new) }
        ensures looked { IfOk result (λ wait. AllLookFor kernel.now wait self.new) }
        ensures later { IfOk result (λ wait. 1 ≤ wait) }
    {
        let tick = kernel.now();
        let run = self.look_at_run(alloc, kernel, tick)?;
        let own = look_all(&mut self.own, alloc, kernel, tick)?;
        Ok(lesser(run, own))
    }

    /// Whether nothing is looked for any more.
    pub(crate) fn is_done(&self) -> bool
        ensures run { result ≡ true → is_some self.now.run.cycle ≡ true }
        ensures own { result ≡ true → All IsDone self.now.own.items }
    {
        self.run.is_done() && are_done(self.own.as_slice())
    }

    /// Does one tick, and hands its entry back.
    #[inline(always)]
    pub(crate) fn follow<L: Ledger>(&mut self, kernel: &mut Kernel, steps: &mut Steps<L>) -> Entry
        requires room { kernel.old.ticks < MAX_TICKS }
        requires is { IsSearching kernel.old self.old }
        ensures next { kernel.new ≡ record kernel.old { ticks = kernel.old.ticks + 1 } }
        ensures entry { trace_of kernel.new ≡ result ∷ trace_of kernel.old }
        ensures is { IsSearching kernel.new self.new }
        ensures looked { (n : ℕ) → HaveLooked kernel.old n self.old → HaveLooked kernel.new n self.new }
    {
        let tick = kernel.now();
        let entry = kernel.tick(steps);
        kernel.dispatcher();
        let reader = reader_of(self.programs.as_slice(), kernel, &entry);
        self.run.follow(tick, &entry, reader);
        entry
    }

    /// Does some ticks, at least one and at most so many: at once where nobody is at a kernel call in them.
    #[inline(always)]
    fn advance<L: Ledger>(&mut self, kernel: &mut Kernel, most: u32, steps: &mut Steps<L>) -> u32
        requires some { 1 ≤ most }
        requires room { kernel.old.ticks + most ≤ MAX_TICKS }
        requires is { IsSearching kernel.old self.old }
        ensures some { 1 ≤ result }
        ensures few { result ≤ most }
        ensures next { kernel.new ≡ record kernel.old { ticks = kernel.old.ticks + result } }
        ensures is { IsSearching kernel.new self.new }
        ensures looked { (n : ℕ) → HaveLooked kernel.old n self.old → HaveLooked kernel.new n self.new }
    {
        stretch_law();
        let quiet = go_quietly(kernel, most, steps);
        if quiet > 0 {
            return quiet;
        }
        self.follow(kernel, steps);
        1
    }

    /// Does so many ticks.
    fn go_on<L: Ledger>(&mut self, kernel: &mut Kernel, ticks: u32, steps: &mut Steps<L>)
        requires room { kernel.old.ticks + ticks ≤ MAX_TICKS }
        requires is { IsSearching kernel.old self.old }
        ensures next { kernel.new ≡ record kernel.old { ticks = kernel.old.ticks + ticks } }
        ensures is { IsSearching kernel.new self.new }
        ensures looked { (n : ℕ) → HaveLooked kernel.old n self.old → HaveLooked kernel.new n self.new }
    {
        let mut left = ticks;
        while left > 0 {
            left -= self.advance(kernel, left, steps);
        }
    }

    /// Does up to so many ticks, and looks for the cycles that end in them. `Err` is want of memory.
    pub(crate) fn search<L: Ledger>(
        &mut self,
        alloc: Global,
        kernel: &mut Kernel,
        ticks: u32,
        steps: &mut Steps<L>,
    ) -> Result<(), NoMemory>
        requires room { kernel.old.ticks + ticks ≤ MAX_TICKS }
        requires is { IsSearching kernel.old self.old }
        requires looked { HaveLooked kernel.old kernel.old.ticks self.old }
        ensures is { OnOk result (IsSearching kernel.new self.new) }
        ensures looked { OnOk result (HaveLooked kernel.new (kernel.old.ticks + ticks + 1) self.new) }
        ensures same { kernel.new ≡ record kernel.old { ticks = kernel.new.ticks } }
        ensures ticks { kernel.new.ticks ≤ kernel.old.ticks + ticks }
        ensures all { OnOk result (self.new.run.cycle ≡ None → kernel.new.ticks ≡ kernel.old.ticks + ticks) }
        ensures ended { OnOk result (HaveEnded self.new kernel.new.ticks (kernel.old.ticks + ticks)) }
    {
        let mut wait = self.look(alloc, kernel)?;
        let mut left = ticks;
        while left > 0 {
            if self.is_done() {
                return Ok(());
            }
            let few = lesser(wait, left);
            self.go_on(kernel, few, steps);
            left -= few;
            wait = self.look(alloc, kernel)?;
        }
        Ok(())
    }

    /// Lets the cycle of the run start where it first can. `Err` is want of memory.
    pub(crate) fn settle<L: Ledger>(
        &mut self,
        alloc: Global,
        kernel: &Kernel,
        pass: SecondPass,
        steps: &mut Steps<L>,
    ) -> Result<(), NoMemory>
        requires pass { IsPass pass }
        requires of { pass.early ≡ loaded_of kernel.now }
        requires few { kernel.now.ticks ≤ MAX_TICKS }
        requires is { IsSearching kernel.now self.old }
        ensures { OnOk result (HasSettled kernel.now self.old self.new) }
    {
        let reached = kernel.now();
        pass.settle(alloc, &mut self.run, reached, steps)?;
        Ok(())
    }
}
