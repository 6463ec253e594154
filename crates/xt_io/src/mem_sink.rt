// A sink in memory, whose writes fail where a test asks for it.
ghost use Rattle.std.specs.Prelude.{◌≡◌, ◌≤◌, [], ◌∷◌, ◌++◌, OnOk, OnErr};

use crate::{Sink, SinkFault};
use std::alloc::{AllocError, Global};

/// A sink in memory. It tells what was written. Each write has a number, from 1.
#[derive(Drop)]
pub struct MemSink {
    bytes: Vec<u8>,
    failing: Vec<u64>,
    most: usize,
    made: u64,
    faults: u64,
    ghost takes_some: { 1 ≤ most },
}

impl MemSink {
    ghost use Rattle.xt_io.specs.MemSink.{sink_bytes, writes_of, no_writes, next_write, fails_next_write};

    /// Nothing is written, no write is to fail, and each takes its whole piece.
    pub fn new(alloc: Global) -> MemSink
        ensures bytes { sink_bytes result ≡ [] }
        ensures writes { writes_of result ≡ no_writes }
    {
        MemSink {
            bytes: Vec::new(alloc),
            failing: Vec::new(alloc),
            most: usize::MAX,
            made: 0,
            faults: 0,
        }
    }

    /// The write with this number is to fail.
    pub fn fail_at(&mut self, call: u64) -> Result<(), AllocError>
        ensures ok { OnOk result (writes_of self.new
            ≡ record (writes_of self.old) { failing = (writes_of self.old).failing ++ call ∷ [] }) }
        ensures err { OnErr result (writes_of self.new ≡ writes_of self.old) }
        ensures bytes { sink_bytes self.new ≡ sink_bytes self.old }
    {
        self.failing.push(call)?;
        Ok(())
    }

    /// Each write is to take at most n bytes.
    pub fn take_at_most(&mut self, n: usize)
        requires { 1 ≤ n }
        ensures writes { writes_of self.new ≡ record (writes_of self.old) { most = n } }
        ensures bytes { sink_bytes self.new ≡ sink_bytes self.old }
    {
        self.most = n;
    }

    /// What was written.
    pub fn bytes(&self) -> &[u8]
        ensures { result.now ≡ sink_bytes self.now }
    {
        &self.bytes
    }

    // Counts the next write, and says whether it is to fail.
    fn begin_write(&mut self) -> bool
        ensures listed { result ≡ fails_next_write (writes_of self.old) }
        ensures counted { self.new ≡ record self.old { made = next_write (writes_of self.old) } }
    {
        self.made = self.made.saturating_add(1);
        self.failing.contains(&self.made)
    }
}

impl Sink for MemSink {
    ghost use Rattle.std.specs.Prelude.{◌<◌, ◌≢◌, true, false, IfOk, IfErr, OnErr, length, take, min};
    ghost use Rattle.xt_io.specs.Sink.{Puts, HasSinkCause};
    ghost use Rattle.xt_io.specs.MemSink.{writes_of, sink_state, next_write, fails_next_write};

    ghost state = { sink_state };

    fn write(&mut self, piece: &[u8]) -> Result<usize, SinkFault>
        ensures within { IfOk result (λ n. n ≤ length piece.now) }
        ensures progress { IfOk result (λ n. 0 < length piece.now → 0 < n) }
        ensures ok { IfOk result (λ n. Puts (sink_state self.old) (sink_state self.new) (take n piece.now)) }
        ensures err { OnErr result (Puts (sink_state self.old) (sink_state self.new) []) }
        ensures refused { IfErr result (HasSinkCause (sink_state self.old) (sink_state self.new)) }

        // It counts itself, and takes as much as it may.
        ensures made { (writes_of self.new).made ≡ next_write (writes_of self.old) }
        ensures failing { (writes_of self.new).failing ≡ (writes_of self.old).failing }
        ensures most { (writes_of self.new).most ≡ (writes_of self.old).most }
        ensures takes { IfOk result (λ n. n ≡ min (length piece.now) (writes_of self.old).most) }

        // A listed write fails, and no other does.
        ensures listed { fails_next_write (writes_of self.old) ≡ true → result ≡ Err SinkFault.Failed }
        ensures other { fails_next_write (writes_of self.old) ≡ false → result ≢ Err SinkFault.Failed }
        ensures other_rises { fails_next_write (writes_of self.old) ≡ false
            → (writes_of self.new).faults ≡ (writes_of self.old).faults }
    {
        if self.begin_write() {
            self.faults = self.faults.saturating_add(1);
            return Err(SinkFault::Failed);
        }
        let n = piece.len().min(self.most);
        self.bytes.extend_from_slice(&piece[..n])?;
        Ok(n)
    }
}

#[cfg(test)]
mod tests {
    use super::*;
    use crate::put_all;
    use std::test::Fail;

    #[test]
    fn pieces_are_written_whole(rt: HostRuntime) -> Result<(), Fail> {
        let mut sink = MemSink::new(rt.alloc());
        sink.take_at_most(2);
        put_all(&mut sink, b"abcde")?;
        put_all(&mut sink, b"")?;
        put_all(&mut sink, b"f")?;
        assert_eq!(rt; sink.bytes(), b"abcdef".as_slice());
        assert_eq!(rt; sink.made, 4);
        Ok(())
    }

    #[test]
    fn a_write_fails_in_mid_stream(rt: HostRuntime) -> Result<(), Fail> {
        let mut sink = MemSink::new(rt.alloc());
        sink.take_at_most(2);
        sink.fail_at(3)?;
        let outcome = put_all(&mut sink, b"abcdef");
        assert!(rt; matches!(outcome, Err(SinkFault::Failed)));
        assert_eq!(rt; sink.bytes(), b"abcd".as_slice());
        assert_eq!(rt; sink.faults, 1);
        Ok(())
    }
}
