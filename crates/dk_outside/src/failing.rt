ghost use Rattle.std.specs.Prelude.{◌↔◌, Contains, IsTrue};

/// Whether the call of this number is one of those that are to fail.
pub(crate) fn is_to_fail(fails: &[u32], number: u64) -> bool
    ensures { IsTrue result ↔ Contains fails.now number }
{
    fails.iter().any(|fails| *fails as u64 == number)
}
