//! A ledger with each label and each kind of event, as a text and as entries.

use dk_certify::TableRow;
use dk_isa::FaultKind;
use dk_trace::{Entry, Event, Label, Refusal, Source, ThreadId, Work};
use std::alloc::{AllocError, Global};

/// Two levels and two processes, each label and each kind of event.
pub const LEDGER: &str = "level 0 period 10 demand 3 blocking 0 spare 7
level 1 period 20 demand 11 blocking 0 spare 9
process alpha level 0 budget 3
process beta level 1 budget 5
0 2 kernel 0
2 1 in alpha.0
3 4 run alpha.0 put 7
7 1 run alpha.0 lock 15
8 3 call alpha.0 create 1 1 5
11 2 call alpha.0 unlock 15
13 1 run alpha.0 wait
14 1 out alpha.0
15 2 slack timeline in beta.1
17 3 slack timeline run beta.1 slack 50
20 2 slack reclaimed 1 call beta.1 refused 15
22 1 call beta.1 delete 4294967295
23 1 run beta.0 fault memory
24 1 slack reclaimed 0 run beta.1 exit
25 10 idle
end 35
";

const ALPHA: ThreadId = ThreadId {
    process: 0,
    serial: 0,
};

const BETA: ThreadId = ThreadId {
    process: 1,
    serial: 0,
};

const CHILD: ThreadId = ThreadId {
    process: 1,
    serial: 1,
};

const SLACK_IN: Label = Label::Slack {
    thread: CHILD,
    source: Source::Timeline,
    work: Work::In,
};

const SLACK_RUN: Label = Label::Slack {
    thread: CHILD,
    source: Source::Timeline,
    work: Work::Run,
};

const SLACK_CALL: Label = Label::Slack {
    thread: CHILD,
    source: Source::Reclaimed(1),
    work: Work::Call,
};

const RECLAIMED_RUN: Label = Label::Slack {
    thread: CHILD,
    source: Source::Reclaimed(0),
    work: Work::Run,
};

/// The levels of `LEDGER`.
pub const LEVELS: [TableRow; 2] = [
    TableRow {
        period: 10,
        demand: 3,
        blocking: 0,
        spare: 7,
    },
    TableRow {
        period: 20,
        demand: 11,
        blocking: 0,
        spare: 9,
    },
];

/// Its lines of entries: how many ticks, what their label is, and the event of the last.
static LINES: [(u32, Label, Option<Event>); 15] = [
    (2, Label::Kernel(0), None),
    (1, Label::In(ALPHA), None),
    (4, Label::Run(ALPHA), Some(Event::Put(7))),
    (1, Label::Run(ALPHA), Some(Event::Lock(15))),
    (
        3,
        Label::Call(ALPHA),
        Some(Event::Create {
            serial: 1,
            level: 1,
            quota: 5,
        }),
    ),
    (2, Label::Call(ALPHA), Some(Event::Unlock(15))),
    (1, Label::Run(ALPHA), Some(Event::Wait)),
    (1, Label::Out(ALPHA), None),
    (2, SLACK_IN, None),
    (3, SLACK_RUN, Some(Event::Slack(50))),
    (2, SLACK_CALL, Some(Event::Refused(Refusal::NotLast))),
    (1, Label::Call(CHILD), Some(Event::Delete(4_294_967_295))),
    (1, Label::Run(BETA), Some(Event::Fault(FaultKind::Memory))),
    (1, RECLAIMED_RUN, Some(Event::Exit)),
    (10, Label::Idle, None),
];

/// Adds the entries of a line.
pub fn add_line(
    entries: &mut Vec<Entry>,
    count: u32,
    label: Label,
    event: Option<Event>,
) -> Result<(), AllocError> {
    for _turn in 1..count {
        entries.push(Entry { label, event: None })?;
    }
    entries.push(Entry { label, event })?;
    Ok(())
}

/// The entries of `LINES`.
pub fn entries(alloc: Global) -> Result<Vec<Entry>, AllocError> {
    let mut entries = Vec::new(alloc);
    for (count, label, event) in LINES {
        add_line(&mut entries, count, label, event)?;
    }
    Ok(entries)
}
