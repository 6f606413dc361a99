//! The lines of the levels.
ghost use Rattle.std.specs.Prelude.{◌≡◌, ◌<◌, length, flat_map};
ghost use Rattle.dk_config.specs.Sums.{below};
ghost use Rattle.dk_outside.specs.Written.{Writes};
ghost use Rattle.dk_ledger.specs.Heading.{ended};
ghost use Rattle.dk_inspect.specs.View.{level_body};
ghost use Rattle.dk_inspect.specs.Printing.{level_line_of};

use dk_kernel::Kernel;
use dk_ledger::TextLine;
use dk_outside::{Sink, SinkError};
use dk_windows::windows_are_the_configurations;

/// The line of a level with these numbers of ticks, without its line feed.
fn numbers_text(level: u8, own: u64, remaining: u64, blocking: u32, left: u32) -> TextLine
    ensures text { result ≡ level_body level own remaining blocking left }
    ensures len { length result < 200 }
{
    let mut text = TextLine::new();
    text.word("level ");
    text.number(level as u32);
    text.word(" own ");
    text.long_number(own);
    text.word(" remaining ");
    text.long_number(remaining);
    text.word(" blocking ");
    text.number(blocking);
    text.word(" left ");
    text.number(left);
    text
}

/// The line of the level at the present tick, without its line feed.
fn level_text(kernel: &Kernel, level: u8) -> TextLine
    requires { level < length kernel.now.config.levels }
    ensures text { ended result ≡ level_line_of kernel.now level }
    ensures len { length result < 200 }
{
    windows_are_the_configurations();
    let demand = kernel.dispatcher().demand();
    let windows = demand.windows();
    numbers_text(
        level,
        demand.own(level),
        demand.remaining(level),
        demand.blocking(level),
        // A window ends after each of its ticks.
        windows.end(level).saturating_sub(windows.now()),
    )
}

/// Writes the lines of all levels.
pub fn write_levels<S: Sink>(kernel: &Kernel, levels: u8, sink: &mut S) -> Result<(), SinkError>
    requires { levels ≡ length kernel.now.config.levels }
    ensures { Writes (S.seen sink.old) (S.seen sink.new) result
        (flat_map (level_line_of kernel.now) (below levels)) }
{
    for level in 0..levels {
        level_text(kernel, level).write_to(sink)?;
    }
    Ok(())
}
