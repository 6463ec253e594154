// Where bytes go.
ghost use Rattle.std.specs.Prelude.{◌≡◌, ◌≤◌, ◌<◌, IfOk, IfErr, OnOk, OnErr, length, take, []};
ghost use Rattle.xt_io.specs.declared.sink.SinkFault.TheVariants.{Memory};

use std::alloc::AllocError;
use thiserror::Error;

/// Why a write was refused.
#[derive(Debug, Drop, Error)]
pub enum SinkFault {
    /// The bytes cannot be written.
    #[error("the output cannot be written")]
    Failed,
    /// Memory ran out.
    #[error("out of memory")]
    Memory(AllocError),
}

impl From<AllocError> for SinkFault {
    ghost from_gives = { λ e fault. fault ≡ Memory e };

    fn from(e: AllocError) -> SinkFault {
        SinkFault::Memory(e)
    }
}

/// Where bytes go. It counts its failures; the count stops at 2^64-1.
pub trait Sink {
    ghost use Rattle.xt_io.specs.Sink.{SinkState, Puts, HasSinkCause};

    /// The bytes written so far, where the sink tells, and how often it has failed.
    ghost state: { Self → SinkState };

    /// Writes the first bytes of the piece, at least one where there is one, and says how many.
    ///
    /// A refusal writes nothing, and `Failed` comes only where the count of failures rose in this call.
    fn write(&mut self, piece: &[u8]) -> Result<usize, SinkFault>
        ensures within { IfOk result (λ n. n ≤ length piece.now) }
        ensures progress { IfOk result (λ n. 0 < length piece.now → 0 < n) }
        ensures ok { IfOk result (λ n. Puts (state self.old) (state self.new) (take n piece.now)) }
        ensures err { OnErr result (Puts (state self.old) (state self.new) []) }
        ensures refused { IfErr result (HasSinkCause (state self.old) (state self.new)) };
}

ghost use Rattle.xt_io.specs.Sink.{Puts, PutsPrefix, HasSinkCause};

/// Writes the whole piece, by as many writes as the sink needs. After a refusal a prefix of the piece was written.
pub fn put_all<S: Sink>(sink: &mut S, piece: &[u8]) -> Result<(), SinkFault>
    ensures ok { OnOk result (Puts (S.state sink.old) (S.state sink.new) piece.now) }
    ensures err { OnErr result (PutsPrefix (S.state sink.old) (S.state sink.new) piece.now) }
    ensures refused { IfErr result (HasSinkCause (S.state sink.old) (S.state sink.new)) }
{
    let mut done = 0;
    while done < piece.len() {
        done += sink.write(&piece[done..])?;
    }
    Ok(())
}
