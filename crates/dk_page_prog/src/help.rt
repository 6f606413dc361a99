//! What the program tells of itself, without any file.
ghost use Rattle.std.specs.Prelude.{◌≡◌, map, option_map, string_bytes};
ghost use Rattle.dk_page_prog.specs.Help.{told_by, told_for};

/// The usage line.
pub const USAGE: &str =
    "usage: deosk-show page FILE [LEDGER [FROM TO]] [--needs NEEDS] [--repeats TICKS]\n";

/// The usage line, what the page is for, and a call of it.
pub const HELP: &str =
    "usage: deosk-show page FILE [LEDGER [FROM TO]] [--needs NEEDS] [--repeats TICKS]\n      one page in HTML for the design review of the configuration, with its checksum, its tables and all outputs word for word, with LEDGER the audit, the picture, of the ticks from FROM to before TO alone where they are given, the use of windows and the totals of a run, with --needs which needs are met in every run, and with --repeats what repeats for ever in the run with its programs, as is found in so many ticks, whatever the status; status 3 where the configuration isn't certified, 2 where the document isn't that of one or the needs are refused and 4 where a need isn't met or the ledger breaks a rule, with the page written all the same\n      example: deosk-show page frame.toml l.txt 0 80\n";

/// Which documents the program reads.
pub const VERSIONS: &str =
    "deosk-show page, for configurations of versions 1 and 2 and needs of version 1\n";

fn told_for(word: &str) -> Option<&'static str>
    ensures { option_map (λ t. t.now) result ≡ told_for word.now }
{
    match word {
        "help" | "--help" | "-h" => Some(HELP),
        "--version" => Some(VERSIONS),
        _ => None,
    }
}

/// What is told for these words, of which the first is the program's name, where they ask for it.
pub(crate) fn told_by(words: &[String]) -> Option<&'static str>
    ensures { option_map (λ t. t.now) result ≡ told_by (map string_bytes words.now) }
{
    match words {
        [_, word] => told_for(word.as_str()),
        _ => None,
    }
}
