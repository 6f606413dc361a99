ghost use Rattle.std.specs.Prelude.{◌≡◌, ◌+◌, ◌<◌};
ghost use Rattle.dk_groups.specs.Groups.{part_of_line};

use dk_ledger::LedgerLine;

/// The part of the line from tick `from` up to before tick `to`. It has the line's event where it has its last tick.
pub(crate) fn part_of(line: LedgerLine, from: u32, to: u32) -> Option<LedgerLine>
    requires { line.start + line.count < 4294967296 }
    ensures { result ≡ part_of_line from to line }
{
    let end = line.start + line.count;
    let first = line.start.max(from);
    let last = end.min(to);
    if first >= last {
        return None;
    }
    Some(LedgerLine {
        start: first,
        count: last - first,
        label: line.label,
        event: if last == end { line.event } else { None },
    })
}
