ghost use Rattle.std.specs.Prelude.{◌≡◌, ◌<◌, length, slice_set};
ghost use Rattle.dk_slack.specs.Kept.{row_of};

/// What a node asks for. Both numbers are 0 where it asks for nothing.
#[derive(Clone, Copy, PartialEq, Eq)]
pub struct Wanted {
    /// The ticks of slack that it still asks for: 0 to 4,294,967,295.
    pub amount: u32,
    /// How many of the next ones are its switch in.
    pub entering: u32,
}

/// What a node asks for that has no wish.
pub const NOTHING: Wanted = Wanted {
    amount: 0,
    entering: 0,
};

/// The row of the node, and nothing where there is no such node.
pub fn row_of(rows: &[Wanted], node: u32) -> Wanted
    ensures { result ≡ row_of rows.now node }
{
    match rows.get(node as usize) {
        Some(row) => *row,
        None => NOTHING,
    }
}
