//! Whose slack the next ticks are, where that is kept in mind.
use super::SlackTable;
use crate::wanted::row_of;
use dk_trace::Source;

/// Whose wish comes first of all, and for how many ticks of slack, one after the other, they all come from one
/// source and something of the wish is left.
#[derive(Clone, Copy)]
pub struct Ahead {
    pub node: u32,
    pub level: u8,
    pub source: Source,
    pub ticks: u32,
}

impl SlackTable {
    ghost use Rattle.std.specs.Prelude.{IfSome};
    ghost use Rattle.dk_slack.specs.Ahead.{IsAhead};

    /// Whose wish comes first of all, where that is known and its switch in is over, and for how many ticks. None also
    /// where it is only not known. It changes nothing, looks into no queue and takes no step.
    #[inline(always)]
    pub fn first_ahead(&self) -> Option<Ahead>
        ensures { IfSome result (IsAhead self.now) }
    {
        let first = self.rail.first()?;
        let row = row_of(&self.rows, first.node);
        if row.entering > 0 || row.amount == 0 {
            return None;
        }
        Some(Ahead {
            node: first.node,
            level: first.level as u8,
            source: self.lasting.source,
            ticks: self.lasting.ticks.min(row.amount - 1),
        })
    }
}
