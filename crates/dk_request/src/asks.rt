//! The asks of `harmonise`, as words spell them.
ghost use Rattle.std.specs.Prelude.{◌≡◌, map, IfOk, option_map};
ghost use Rattle.dk_request.specs.Meaning.{are_asks, ask_in, asks_in, bound_in};

use crate::words::short_number_in;
use dk_config::MAX_SPAN;
use dk_plan::{Ask, are_asks};
use std::alloc::{AllocError, Global};
use std::marker::Model;

/// Asks for a period, in order. They are seen as their list.
#[derive(Drop)]
pub struct Asks {
    asks: Vec<Ask>,
}

impl Model for Asks {
    ghost use Rattle.std.specs.Prelude.{List};
    ghost use Rattle.dk_plan.specs.declared.harmonising.Ask.{Ask as AskedPeriod};

    ghost Value = { List AskedPeriod };

    ghost view = { λ a. a.asks.items };
}

impl Asks {
    /// Needs no memory.
    pub fn new(asks: Vec<Ask>) -> Asks
        ensures { result ≡ asks.items }
    {
        Asks { asks }
    }

    /// The asks, lent.
    pub fn as_slice(&self) -> &[Ask]
        ensures { result.now ≡ self.now }
    {
        self.asks.as_slice()
    }
}

/// A number from 1 to 1,000,000.
pub fn bound_in(word: &str) -> Option<u32>
    ensures { result ≡ bound_in word.now }
{
    short_number_in(1, MAX_SPAN, word)
}

/// `PERIOD:BUDGET`.
fn ask_in(word: &str) -> Option<Ask>
    ensures { result ≡ ask_in word.now }
{
    let (period, budget) = word.split_once(':')?;
    Some(Ask {
        period: bound_in(period)?,
        budget: bound_in(budget)?,
    })
}

/// The asks of these words, where each is one.
pub fn asks_in(alloc: Global, words: &[&str]) -> Result<Option<Vec<Ask>>, AllocError>
    ensures { IfOk result (λ r. option_map (λ v. v.items) r ≡ asks_in (map (λ w. w.now) words.now)) }
{
    let mut asks = Vec::new(alloc);
    for word in words {
        let Some(ask) = ask_in(word) else {
            return Ok(None);
        };
        asks.push(ask)?;
    }
    Ok(Some(asks))
}

/// Whether these are 1 to 32 asks with periods from `hi` on.
pub fn are_fit(hi: u32, asks: &[Ask]) -> bool
    ensures { result ≡ are_asks hi asks.now }
{
    are_asks(hi, asks)
}
