//! Which output of entries is asked for.
ghost use Rattle.std.specs.Prelude.{◌≡◌};
ghost use Rattle.dk_request.specs.Meaning.{output_of};

/// What is written of the entries of a run or of a ledger.
#[derive(Clone, Copy)]
pub enum Output {
    /// All of them.
    Ledger,
    /// The report that they come to.
    Report,
}

/// The output that is asked for, by whether `--report` stands among the words.
pub fn output_of(report: bool) -> Output
    ensures { result ≡ output_of report }
{
    if report {
        Output::Report
    } else {
        Output::Ledger
    }
}
