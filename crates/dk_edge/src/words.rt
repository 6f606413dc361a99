//! The words of the process.
ghost use Rattle.std.specs.Prelude.{◌≡◌, ℕ, List, Option, IfOk, IfSome, drop, map, string_bytes};
ghost use Rattle.dk_edge.specs.Words.{usable};

use dk_outside::NoMemory;
use std::alloc::Global;

/// What is given under a number.
#[derive(Drop)]
pub enum Word {
    Text(String),
    NotText,
    /// There are no more.
    Missing,
}

/// What gives the words of a process.
///
/// Its clause is the premise of all that is proved of words: they are the ones that the process was given.
pub trait Words {
    ghost use Rattle.dk_edge.specs.Words.{IsFirst};

    /// The words in order, the program's own name first, where they are told. One that isn't text is `None`.
    ghost told: { Self → Option (List (Option (List ℕ))) };

    /// The word of a number, counted from 0.
    fn word(&self, alloc: Global, number: usize) -> Result<Word, NoMemory>
        ensures { IfSome (told self.now) (λ words. IfOk result (IsFirst (drop number words))) };
}

/// The words that were given, with an empty one in place of the program's own name, which isn't looked at and may be any
/// bytes: all of them, or none where one of the others isn't text, which is a faulty command line.
#[tactic(auto, using(crate::proofs::WordsLemmas::begins, crate::proofs::WordsLemmas::ends, crate::proofs::WordsLemmas::is_spoilt))]
pub fn words_of<W: Words>(given: &W, alloc: Global) -> Result<Vec<String>, NoMemory>
    ensures { IfSome (W.told given.now) (λ words. IfOk result (λ v. map string_bytes v.items ≡ usable words)) }
{
    let mut words = Vec::new(alloc);
    words.push(String::new(alloc))?;
    for number in 1..usize::MAX {
        match given.word(alloc, number)? {
            Word::Text(word) => words.push(word)?,
            Word::NotText => return Ok(Vec::new(alloc)),
            Word::Missing => return Ok(words),
        }
    }
    Err(NoMemory)
}
