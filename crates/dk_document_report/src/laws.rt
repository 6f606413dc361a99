//! What the text of a document says of it.
ghost use Rattle.dk_document_report.specs.Counted.{TellsNone};

/// `faults 0` is told exactly where the document is read as a configuration.
pub fn tells_none_law()
    ensures { TellsNone }
{}
