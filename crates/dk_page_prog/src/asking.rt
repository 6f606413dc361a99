//! What the words ask for.
ghost use Rattle.std.specs.Prelude.{◌≡◌, map, option_map, string_bytes};
ghost use Rattle.dk_page_prog.specs.Asking.{asked_by, asking_of, is_name, is_needs, is_page, of_name, range_of, repeats_of, with_ledger, with_needs, with_range, with_repeats};

use crate::numbers::ticks_in;
use dk_review::Range;

/// What is asked for: the page of the file of this name, with what is said in the files of needs and of a ledger, the range of
/// its picture, and what repeats in so many ticks, where they are named.
#[derive(Clone, Copy)]
pub(crate) struct Asked<'a> {
    pub name: &'a str,
    pub needs: Option<&'a str>,
    pub ledger: Option<&'a str>,
    pub range: Option<Range>,
    pub repeats: Option<u32>,
}

fn of_name<'a>(name: &'a str) -> Asked<'a>
    ensures { asking_of result ≡ of_name name.now }
{
    Asked {
        name,
        needs: None,
        ledger: None,
        range: None,
        repeats: None,
    }
}

/// Whether the word isn't empty, and doesn't begin as a flag does.
fn is_name(word: &[u8]) -> bool
    ensures { result ≡ is_name word.now }
{
    match word {
        [first, ..] => *first != b'-',
        [] => false,
    }
}

fn is_page(verb: &str, name: &str) -> bool
    ensures { result ≡ is_page verb.now name.now }
{
    verb == "page" && is_name(name.as_bytes())
}

/// The range of these words, where they are two ticks, the first below the second.
#[tactic(auto, unfolding(crate::specs::Asking::range_of))]
fn range_of(from: &str, to: &str) -> Option<Range>
    ensures { result ≡ range_of from.now to.now }
{
    let from = ticks_in(from)?;
    let to = ticks_in(to)?;
    if from < to {
        Some(Range { from, to })
    } else {
        None
    }
}

/// Whether these words name a file of needs.
fn is_needs(flag: &str, needs: &str) -> bool
    ensures { result ≡ is_needs flag.now needs.now }
{
    flag == "--needs" && is_name(needs.as_bytes())
}

/// The ticks that these words ask for.
fn repeats_of(flag: &str, ticks: &str) -> Option<u32>
    ensures { result ≡ repeats_of flag.now ticks.now }
{
    if flag == "--repeats" {
        ticks_in(ticks)
    } else {
        None
    }
}

/// What is asked for by words that stand behind `[LEDGER [FROM TO]] [--needs NEEDS]`.
#[tactic(auto, unfolding(crate::specs::Asking::with_repeats))]
fn with_repeats<'a>(asked: Asked<'a>, rest: &'a [String]) -> Option<Asked<'a>>
    ensures { option_map asking_of result ≡ with_repeats (asking_of asked.entry) (map string_bytes rest.now) }
{
    match rest {
        [] => Some(asked),
        [_] => None,
        [flag, ticks] => {
            let ticks = repeats_of(flag.as_str(), ticks.as_str())?;
            Some(Asked {
                repeats: Some(ticks),
                ..asked
            })
        }
        _ => None,
    }
}

/// By words that stand behind `[LEDGER [FROM TO]]`.
#[tactic(auto, unfolding(crate::specs::Asking::with_needs))]
fn with_needs<'a>(asked: Asked<'a>, rest: &'a [String]) -> Option<Asked<'a>>
    ensures { option_map asking_of result ≡ with_needs (asking_of asked.entry) (map string_bytes rest.now) }
{
    match rest {
        [flag, needs, behind @ ..] if is_needs(flag.as_str(), needs.as_str()) => {
            let needs = Some(needs.as_str());
            with_repeats(Asked { needs, ..asked }, behind)
        }
        _ => with_repeats(asked, rest),
    }
}

/// By words that stand behind LEDGER.
#[tactic(auto, unfolding(crate::specs::Asking::with_range))]
fn with_range<'a>(asked: Asked<'a>, rest: &'a [String]) -> Option<Asked<'a>>
    ensures { option_map asking_of result ≡ with_range (asking_of asked.entry) (map string_bytes rest.now) }
{
    match rest {
        [from, to, behind @ ..] => match range_of(from.as_str(), to.as_str()) {
            Some(range) => {
                let range = Some(range);
                with_needs(Asked { range, ..asked }, behind)
            }
            None => with_needs(asked, rest),
        },
        _ => with_needs(asked, rest),
    }
}

/// By words that stand behind the name of the file.
#[tactic(auto, unfolding(crate::specs::Asking::with_ledger))]
fn with_ledger<'a>(asked: Asked<'a>, rest: &'a [String]) -> Option<Asked<'a>>
    ensures { option_map asking_of result ≡ with_ledger (asking_of asked.entry) (map string_bytes rest.now) }
{
    match rest {
        [] => Some(asked),
        [ledger, behind @ ..] if is_name(ledger.as_bytes()) => {
            let ledger = Some(ledger.as_str());
            with_range(Asked { ledger, ..asked }, behind)
        }
        _ => with_needs(asked, rest),
    }
}

/// What the words ask for.
#[tactic(auto, unfolding(crate::specs::Asking::asked_by))]
pub(crate) fn asked_by<'a>(words: &'a [String]) -> Option<Asked<'a>>
    ensures { option_map asking_of result ≡ asked_by (map string_bytes words.now) }
{
    match words {
        [_, verb, name, rest @ ..] if is_page(verb.as_str(), name.as_str()) => {
            with_ledger(of_name(name.as_str()), rest)
        }
        _ => None,
    }
}
