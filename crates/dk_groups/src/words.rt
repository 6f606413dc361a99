//! Words of a ledger's lines that its texts share.
ghost use Rattle.std.specs.Prelude.{◌≡◌, ◌≤◌, length};
ghost use Rattle.dk_ledger.specs.LineText.{fault_text, work_text};

use dk_isa::FaultKind;
use dk_trace::Work;

/// What a tick of slack was for, as a ledger has it.
pub fn work_word(work: Work) -> &'static str
    ensures text { result.now ≡ work_text work }
    ensures short { length result.now ≤ 4 }
{
    match work {
        Work::In => "in",
        Work::Run => "run",
        Work::Call => "call",
    }
}

/// The kind of a fault, as a ledger has it.
pub fn fault_word(kind: FaultKind) -> &'static str
    ensures text { result.now ≡ fault_text kind }
    ensures short { length result.now ≤ 6 }
{
    match kind {
        FaultKind::Fetch => "fetch",
        FaultKind::Decode => "decode",
        FaultKind::Memory => "memory",
        FaultKind::Divide => "divide",
        FaultKind::Call => "call",
        FaultKind::Hold => "hold",
    }
}
