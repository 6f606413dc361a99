//! The text of a record: words, and behind them numbers. No word has a byte that calls for quotes, so a record is its
//! fields with commas between them, and a line feed behind them.
ghost use Rattle.std.specs.Prelude.{◌≡◌, ◌++◌, ◌∷◌, codes, flat_map, map, string_bytes, IfOk, OnOk};
ghost use Rattle.std.specs.List.{AllByRecursion};
ghost use Rattle.dk_table.specs.Records.{IsPlain, IsSmall, behind_comma, number_field, record_text};

use std::alloc::{AllocError, Global};

/// A number that may be there, as a field takes it.
pub fn optional_number(number: Option<u32>) -> Option<u64>
    ensures same { result ≡ number }
    ensures small { IsSmall result }
{
    match number {
        Some(number) => Some(number as u64),
        None => None,
    }
}

fn add_number(alloc: Global, text: &mut String, number: Option<u64>) -> Result<(), AllocError>
    ensures { OnOk result (string_bytes text.new ≡ string_bytes text.old ++ behind_comma (number_field number)) }
{
    match number {
        Some(number) => {
            let field = format!(in alloc; ",{number}")?;
            text.push_str(field.as_str())
        }
        None => text.push_str(","),
    }
}

fn add_numbers(alloc: Global, text: &mut String, numbers: &[Option<u64>]) -> Result<(), AllocError>
    ensures { OnOk result (string_bytes text.new
        ≡ string_bytes text.old ++ flat_map (λ n. behind_comma (number_field n)) numbers.now) }
{
    for number in numbers {
        add_number(alloc, text, *number)?;
    }
    Ok(())
}

/// The words, the numbers behind them, and the end of the line.
fn ended(alloc: Global, words: String, numbers: &[Option<u64>]) -> Result<String, AllocError>
    ensures { IfOk result (λ s. string_bytes s
        ≡ (string_bytes words ++ flat_map (λ n. behind_comma (number_field n)) numbers.now) ++ codes "\n") }
{
    let mut text = words;
    add_numbers(alloc, &mut text, numbers)?;
    text.push_str("\n")?;
    Ok(text)
}

/// The record of two words and these numbers, as the default writer of `csv` writes it; a field is empty where there is
/// no number. `Err` is want of memory.
pub fn record_of_two(
    alloc: Global,
    first: &str,
    second: &str,
    numbers: &[Option<u64>],
) -> Result<String, AllocError>
    requires first { IsPlain first.now }
    requires second { IsPlain second.now }
    requires numbers { AllByRecursion IsSmall numbers.now }
    ensures { IfOk result (λ s. string_bytes s ≡ record_text (first.now ∷ second.now ∷ map number_field numbers.now)) }
{
    let words = format!(in alloc; "{first},{second}")?;
    ended(alloc, words, numbers)
}

/// The same of three words.
pub fn record_of_three(
    alloc: Global,
    first: &str,
    second: &str,
    third: &str,
    numbers: &[Option<u64>],
) -> Result<String, AllocError>
    requires first { IsPlain first.now }
    requires second { IsPlain second.now }
    requires third { IsPlain third.now }
    requires numbers { AllByRecursion IsSmall numbers.now }
    ensures { IfOk result (λ s. string_bytes s
        ≡ record_text (first.now ∷ second.now ∷ third.now ∷ map number_field numbers.now)) }
{
    let words = format!(in alloc; "{first},{second},{third}")?;
    ended(alloc, words, numbers)
}

/// The same of four words.
pub fn record_of_four(
    alloc: Global,
    first: &str,
    second: &str,
    third: &str,
    fourth: &str,
    numbers: &[Option<u64>],
) -> Result<String, AllocError>
    requires first { IsPlain first.now }
    requires second { IsPlain second.now }
    requires third { IsPlain third.now }
    requires fourth { IsPlain fourth.now }
    requires numbers { AllByRecursion IsSmall numbers.now }
    ensures { IfOk result (λ s. string_bytes s
        ≡ record_text (first.now ∷ second.now ∷ third.now ∷ fourth.now ∷ map number_field numbers.now)) }
{
    let words = format!(in alloc; "{first},{second},{third},{fourth}")?;
    ended(alloc, words, numbers)
}
