ghost use Rattle.dk_recount.specs.Facing.{CallersAreThere, CallersHaveSlots};

use crate::needed::caller_laws;

/// Whoever is in a call, or would be in the tick to come, has a row.
pub fn callers_have_rows()
    ensures there { CallersAreThere }
    ensures slots { CallersHaveSlots }
{
    caller_laws();
}
