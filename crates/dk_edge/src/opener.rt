//! What opens files.
ghost use Rattle.std.specs.Prelude.{◌≡◌, ◌≤◌, ℕ, List, Option, IfOk, IfSome};
ghost use Rattle.std.specs.Io.{ReadsAtMost};
ghost use Rattle.std.specs.Io.KnownBytes.{ReadConsumes};
ghost use Rattle.dk_outside.specs.Files.{CountsFailedRead, CountsStray};
ghost use Rattle.dk_edge.specs.Opener.{HasWhole};

use dk_outside::DepotError;

/// What opens files to be read.
///
/// Its clauses are the premise of all that is proved of files. A name holds the same bytes, or no file, as long as the
/// program runs; a file that is opened is read from its first byte on, and a read that gives nothing is at its end. Each
/// open or read that the system lets fail is counted, once.
pub trait Opener: Drop {
    type File: Drop;

    /// What each name holds, where it is told.
    ghost contents: { Self → Option (List ℕ → Option (List ℕ)) };

    /// What is still to be read of a file, where it is told.
    ghost left: { Self.File → Option (List ℕ) };

    /// How many opens and reads failed.
    ghost failures: { Self → ℕ };

    /// How many opens were of names that hold no file, where the files are told.
    ghost strays: { Self → ℕ };

    /// Opens the file of a name.
    fn open_at(&mut self, name: &str) -> Result<Self::File, DepotError>
        ensures whole { IfSome (contents self.old) (λ at. IfOk result (λ file. HasWhole (at name.now) (left file))) }
        ensures counted { CountsFailedRead result (failures self.old) (failures self.new) }
        ensures failed { failures self.old ≤ failures self.new }
        ensures rise { strays self.old ≤ strays self.new }
        ensures stray { IfSome (contents self.old) (λ at. CountsStray at name.now (strays self.old) (strays self.new)) }
        ensures same { contents self.new ≡ contents self.old };

    /// About how many bytes a file has. No clause says so: it serves to find room at once.
    fn length_of(&self, file: &Self::File) -> u64;

    /// Reads the next bytes of a file, and says how many.
    fn read_from(&mut self, file: &mut Self::File, buffer: &mut [u8]) -> Result<usize, DepotError>
        ensures bound { ReadsAtMost result buffer.new }
        ensures bytes { ReadConsumes (left file.old) (left file.new) result buffer.new }
        ensures counted { CountsFailedRead result (failures self.old) (failures self.new) }
        ensures failed { failures self.old ≤ failures self.new }
        ensures strays { strays self.new ≡ strays self.old }
        ensures same { contents self.new ≡ contents self.old };
}
