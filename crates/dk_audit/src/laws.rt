//! A ledger has one finding.
ghost use Rattle.dk_audit.specs.Findings.{IsFoundOnce};

/// There is one finding at most, so each one comes exactly where its definition says.
pub fn one_finding()
    ensures { IsFoundOnce }
{}
