//! The line that tells the reactions of a chain in a ledger.
ghost use Rattle.std.specs.Prelude.{◌≡◌, string_bytes, IfOk};
ghost use Rattle.dk_chain_ledger.specs.Text.{reactions_line};

use crate::reactions::Reactions;
use std::alloc::{AllocError, Global};

/// `ledger reaction shortest S longest L from T`, in ticks, where T is the first event with the longest; and
/// `ledger reaction none` where the ledger answers no event.
pub fn reactions_line(alloc: Global, seen: Option<Reactions>) -> Result<String, AllocError>
    ensures { IfOk result (λ s. string_bytes s ≡ reactions_line seen) }
{
    match seen {
        Some(seen) => {
            let shortest = seen.shortest;
            let longest = seen.longest;
            let event = seen.event;
            format!(in alloc;
                "ledger reaction shortest {shortest} longest {longest} from {event}\n"
            )
        }
        None => String::from_str(alloc, "ledger reaction none\n"),
    }
}
