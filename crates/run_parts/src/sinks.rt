// What is put into the sinks of a run.
ghost use Rattle.std.specs.Prelude.{OnErr, OnOk};
ghost use Rattle.xt_io.specs.Sink.{PutsPrefix};
ghost use Rattle.run_parts.specs.Status.{note_line, Tells, Writes};

use crate::status::Status;
use std::alloc::{AllocError, Global};
use xt_io::{Sink, SinkFault, put_all};

/// Writes the text in one piece, and says how that ended.
pub fn write<S: Sink>(text: &[u8], out: &mut S) -> Status
    ensures { Writes (S.state out.old) (S.state out.new) text.now result }
{
    match put_all(out, text) {
        Ok(()) => Status::Done,
        Err(SinkFault::Failed) => Status::Write,
        Err(SinkFault::Memory(_)) => Status::Memory,
    }
}

/// Says the line of a status. A fault of the notes changes nothing.
pub fn tell<N: Sink>(alloc: Global, status: &Status, notes: &mut N) -> Result<(), AllocError>
    ensures told { OnOk result (Tells (N.state notes.old) (N.state notes.new) status.now) }
    ensures memory { OnErr result (PutsPrefix (N.state notes.old) (N.state notes.new) (note_line status.now)) }
{
    let line = status.line(alloc)?;
    match put_all(notes, line.as_bytes()) {
        Ok(()) | Err(SinkFault::Failed) => Ok(()),
        Err(SinkFault::Memory(e)) => Err(e),
    }
}
