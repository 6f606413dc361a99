ghost use Rattle.std.specs.Prelude.{◌≡◌, ◌<◌, ◌≤◌, IfOk, OnErr, IsErr, length, take, Ok};
ghost use Rattle.dk_outside.specs.Counts.{Rises};
ghost use Rattle.dk_outside.specs.Views.{SinkView};
ghost use Rattle.dk_outside.specs.Written.{Appends, Writes};

/// Why a write took nothing.
#[derive(Clone, Copy, Debug, PartialEq, Eq)]
pub enum SinkError {
    /// The outside failed, and the sink's count of faults rose.
    Failed,
}

/// Where output goes.
///
/// A sink starts with `faults` at 0, and it never falls.
pub trait Sink {
    /// What was written so far, the count of faults and the capacity.
    ghost seen: { Self → SinkView };

    /// Appends the first bytes of a piece, and says how many. A failed write appends nothing.
    fn write(&mut self, piece: &[u8]) -> Result<usize, SinkError>
        ensures part { IfOk result (λ n. n ≤ length piece.now) }
        ensures appended { IfOk result
            (λ n. Appends (seen self.old).written (seen self.new).written (take n piece.now)) }
        ensures err { OnErr result ((seen self.new).written ≡ (seen self.old).written) }

        ensures cause { IsErr result → Rises (seen self.old).faults (seen self.new).faults }
        ensures none_taken { result ≡ Ok 0 → 0 < length piece.now
            → Rises (seen self.old).faults (seen self.new).faults }
        ensures stays { IfOk result (λ n. 0 < n → (seen self.new).faults ≡ (seen self.old).faults) }
        ensures faults { (seen self.old).faults ≤ (seen self.new).faults }

        ensures same { (seen self.new).capacity ≡ (seen self.old).capacity };
}

/// Appends a piece whole. Where the sink fails, a prefix of the piece was appended.
///
/// Mostly one write takes it, so that one is part of the caller.
#[inline(always)]
pub fn write_all_to<S: Sink>(sink: &mut S, piece: &[u8]) -> Result<(), SinkError>
    ensures { Writes (S.seen sink.old) (S.seen sink.new) result piece.now }
{
    if piece.is_empty() {
        return Ok(());
    }
    let n = sink.write(piece)?;
    if n == piece.len() {
        return Ok(());
    }
    if n == 0 {
        return Err(SinkError::Failed);
    }
    write_rest(sink, &piece[n..])
}

/// Appends the rest of a piece.
///
/// Each turn of its loop takes at least one byte or ends it.
#[inline(never)]
fn write_rest<S: Sink>(sink: &mut S, piece: &[u8]) -> Result<(), SinkError>
    ensures { Writes (S.seen sink.old) (S.seen sink.new) result piece.now }
{
    let mut done = 0;
    while done < piece.len() {
        let n = sink.write(&piece[done..])?;
        if n == 0 {
            return Err(SinkError::Failed);
        }
        done += n;
    }
    Ok(())
}
