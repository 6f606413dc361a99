//! What a configuration tells beside its ledger.
ghost use Rattle.std.specs.Prelude.{ℕ, ◌≡◌, ◌<◌, ◌≤◌, ◌++◌, ◌∷◌, [], IfOk, OnOk, length, map};
ghost use Rattle.dk_config.specs.Checked.{IsChecked, IsWithinLimits};
ghost use Rattle.dk_picture.specs.Promises.{HasBound, IsBound, IsPromised, nothing_promised};

use dk_config::{Config, MutexRow, NoMemory, Text};
use dk_when::{begins_by, done_by};
use std::alloc::Global;
use std::marker::Model;

/// By when in each of its windows a main begins and is done, in ticks from the window's start.
#[derive(Clone, Copy)]
pub struct Bound {
    pub begins: u32,
    pub done: u32,
}

/// The names of a configuration's mutexes and the bounds of its mains, seen as a `Promised`.
#[derive(Drop)]
pub struct Promise {
    names: Vec<Text>,
    bounds: Vec<Bound>,
}

impl Model for Promise {
    ghost use Rattle.dk_picture.specs.Promises.{Promised};

    ghost Value = { Promised };

    ghost view = { λ p. record { names = p.names.items; bounds = p.bounds.items } };
}

fn names_of(alloc: Global, mutexes: &[MutexRow]) -> Result<Vec<Text>, NoMemory>
    ensures { IfOk result (λ names. names.items ≡ map (λ m. m.name) mutexes.now) }
{
    let mut names = Vec::new(alloc);
    for mutex in mutexes {
        let name = String::from_str(alloc, mutex.name.as_str())?;
        names.push(Text::new(name))?;
    }
    Ok(names)
}

fn bound_of(config: &Config, process: u32) -> Bound
    requires checked { IsChecked config.now }
    requires limits { IsWithinLimits config.now }
    requires process { process < length config.now.processes }
    ensures { IsBound config.now process result }
{
    Bound {
        begins: begins_by(config, process),
        done: done_by(config, process),
    }
}

fn push_bound(bounds: &mut Vec<Bound>, bound: Bound) -> Result<(), NoMemory>
    ensures { OnOk result (bounds.new.items ≡ bounds.old.items ++ bound ∷ []) }
{
    bounds.push(bound)?;
    Ok(())
}

/// By when the mains begin and are done, in the order of the processes.
fn bounds_of(alloc: Global, config: &Config) -> Result<Vec<Bound>, NoMemory>
    requires checked { IsChecked config.now }
    requires limits { IsWithinLimits config.now }
    ensures count { IfOk result (λ bounds. length bounds.items ≡ length config.now.processes) }
    ensures bounds { IfOk result (λ bounds. (p : ℕ) → p < length config.now.processes
        → HasBound config.now bounds.items p) }
{
    let mut bounds = Vec::new(alloc);
    for process in 0..config.processes.len() as u32 {
        push_bound(&mut bounds, bound_of(config, process))?;
    }
    Ok(bounds)
}

impl Promise {
    /// Where there is no configuration. It needs no memory.
    pub fn none(alloc: Global) -> Promise
        ensures { result ≡ nothing_promised }
    {
        Promise {
            names: Vec::new(alloc),
            bounds: Vec::new(alloc),
        }
    }

    /// What the configuration tells. `Err` is want of memory.
    pub fn of(alloc: Global, config: &Config) -> Result<Promise, NoMemory>
        requires checked { IsChecked config.now }
        requires limits { IsWithinLimits config.now }
        ensures { IfOk result (IsPromised config.now) }
    {
        Ok(Promise {
            names: names_of(alloc, config.mutexes.as_slice())?,
            bounds: bounds_of(alloc, config)?,
        })
    }

    pub(crate) fn names(&self) -> &[Text]
        ensures { result.now ≡ self.now.names }
    {
        self.names.as_slice()
    }

    pub(crate) fn bounds(&self) -> &[Bound]
        ensures { result.now ≡ self.now.bounds }
    {
        self.bounds.as_slice()
    }
}
