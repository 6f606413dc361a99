ghost use Rattle.std.specs.Prelude.{◌≡◌, ◌+◌, ◌<◌, ◌≤◌, ◌%◌, ◌^◌, nat_lt, if◌then◌else◌, length};
ghost use Rattle.dk_slack.specs.Unclaimed.{source};
ghost use Rattle.dk_slack.specs.Counters.{since, run_of_slower, unclaimed_by, AreCounters};
ghost use Rattle.dk_slack.specs.Lasting.{Lasts};

use dk_config::MAX_LEVELS;
use dk_trace::Source;

/// Where slack comes from, and for how many ticks of nobody, one after the other, it comes from there for sure.
#[derive(Clone, Copy)]
pub struct Lasting {
    pub source: Source,
    pub ticks: u32,
}

impl Lasting {
    /// For no tick.
    pub fn unknown() -> Lasting
        ensures { result.ticks ≡ 0 }
    {
        Lasting {
            source: Source::Timeline,
            ticks: 0,
        }
    }
}

/// How far the counter has run since the mark.
#[inline(always)]
pub fn since(mark: u32, counter: u32) -> u32
    ensures { result ≡ since mark counter }
{
    counter.wrapping_sub(mark)
}

/// The ticks of nobody and of all slower levels, as a sum that begins anew after 2^32 as they do.
pub fn run_of_slower(level: u8, nobodys: u32, counters: &[u32]) -> u32
    ensures { result ≡ run_of_slower level nobodys counters.now % 2 ^ 32 }
{
    let mut run = nobodys;
    for slower in level as usize + 1..counters.len() {
        run = run.wrapping_add(counters[slower]);
    }
    run
}

/// The spare of the timeline, else the first level that has used its spare up.
pub fn source(nobodys: u32, counters: &[u32], marks: &[u32], spares: &[u32]) -> Source
    requires levels { AreCounters counters.now marks.now spares.now }
    requires few { length spares.now ≤ MAX_LEVELS }
    ensures { result ≡ source (unclaimed_by nobodys counters.now marks.now) spares.now }
{
    let mut run = nobodys;
    // The number of the levels stands for none of them, so that a level is passed with one choice.
    let mut first = spares.len();
    for level in (0..spares.len()).rev() {
        first = first_at(level, since(marks[level], run), spares[level], first);
        run = run.wrapping_add(counters[level]);
    }
    reclaimed(first, spares.len())
}

/// The same, with how long it lasts: as long as each level before it has some of its spare left.
pub fn foreseen(nobodys: u32, counters: &[u32], marks: &[u32], spares: &[u32]) -> Lasting
    requires levels { AreCounters counters.now marks.now spares.now }
    requires few { length spares.now ≤ MAX_LEVELS }
    ensures { Lasts result (unclaimed_by nobodys counters.now marks.now) spares.now }
{
    let mut run = nobodys;
    let mut first = spares.len();
    let mut ticks = u32::MAX;
    for level in (0..spares.len()).rev() {
        let unclaimed = since(marks[level], run);
        first = first_at(level, unclaimed, spares[level], first);
        ticks = ticks_at(unclaimed, spares[level], ticks);
        run = run.wrapping_add(counters[level]);
    }
    Lasting {
        source: reclaimed(first, spares.len()),
        ticks,
    }
}

/// For how many ticks the level keeps some of its spare, and the slower ones do, and any number where it has none left.
#[inline(always)]
fn ticks_at(unclaimed: u32, spare: u32, slower: u32) -> u32
    ensures own { unclaimed < spare → unclaimed + result ≤ spare }
    ensures slower { unclaimed < spare → result ≤ slower }
{
    if spare <= unclaimed {
        return u32::MAX;
    }
    slower.min(spare - unclaimed)
}

/// The level where it has used its spare up, else the first slower one that has.
#[inline(always)]
fn first_at(level: usize, unclaimed: u32, spare: u32, slower: usize) -> usize
    ensures { result ≡ (if nat_lt unclaimed spare then slower else level) }
{
    if unclaimed >= spare {
        return level;
    }
    slower
}

/// The spare of the level, if it is one.
fn reclaimed(level: usize, levels: usize) -> Source
    requires { levels ≤ MAX_LEVELS }
    ensures { result ≡ (if nat_lt level levels then Source.Reclaimed level else Source.Timeline) }
{
    if level < levels {
        return Source::Reclaimed(level as u8);
    }
    Source::Timeline
}
