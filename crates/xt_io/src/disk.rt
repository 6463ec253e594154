// The edge to the system: a few lines over std. The files tell nothing of what they hold; a sink
// tells what its writer tells, and the writers of the system tell nothing.
ghost use Rattle.std.specs.Prelude.{◌≡◌, ◌≤◌, ◌+◌, None, IfOk, IfErr, vec_len};
ghost use Rattle.xt_io.specs.Disk.{HasReadCause};

use crate::{Files, LoadFault, Sink, SinkFault};
use std::alloc::Global;
use std::fs;
use std::fs::OpenFile;
use std::io::{Read, Write};
use std::rt::Files as FileSystem;

const BUFFER: usize = 65536;

/// Files of the system, by their paths.
pub struct DiskFiles<'a, R> {
    rt: &'a R,
    faults: u64,
    taken: u64,
}

impl<R> Drop for DiskFiles<'_, R> {
    fn drop(self) {
        let DiskFiles {
            rt: _,
            faults: _,
            taken: _,
        } = self;
    }
}

impl<'a, R: FileSystem> DiskFiles<'a, R> {
    /// The files that the system shows; nothing has been read, and nothing has failed.
    pub fn new(rt: &'a R) -> Self
        ensures faults { result.faults ≡ 0 }
        ensures taken { result.taken ≡ 0 }
    {
        DiskFiles {
            rt,
            faults: 0,
            taken: 0,
        }
    }
}

impl<R: FileSystem> Files for DiskFiles<'_, R> {
    ghost state = { λ f. record { held = None; faults = f.faults; taken = f.taken } };

    fn load(&mut self, alloc: Global, name: &str, limit: u64) -> Result<Vec<u8>, LoadFault> {
        let Ok(mut file) = fs::open(self.rt, name) else {
            self.faults = self.faults.saturating_add(1);
            return Err(LoadFault::Failed);
        };
        let size = file.metadata().map_or(0, |metadata| metadata.len());
        let (taken, outcome) = read_within(alloc, &mut file, size, limit);
        self.taken = self.taken.saturating_add(taken);
        if matches!(&outcome, Err(LoadFault::Failed)) {
            self.faults = self.faults.saturating_add(1);
        }
        outcome
    }
}

// Reads to the end, if it comes within the limit, and says how many bytes were read. The bytes go
// into one buffer, which has room for `size` of them from the start, so that a file of that size is
// never copied.
fn read_within<R: Read>(
    alloc: Global,
    reader: &mut R,
    size: u64,
    limit: u64,
) -> (u64, Result<Vec<u8>, LoadFault>)
    ensures taken { result.0 ≤ limit + 1 }
    ensures within { IfOk result.1 (λ bytes. vec_len bytes ≤ limit) }
    ensures refused { IfErr result.1 (HasReadCause result.0 limit) }
{
    let mut bytes = match Vec::with_capacity(alloc, size.min(limit) as usize) {
        Ok(bytes) => bytes,
        Err(e) => return (0, Err(LoadFault::Memory(e))),
    };
    let mut buffer = [0u8; BUFFER];
    let mut taken = 0;
    for _ in 0..u64::MAX {
        // No byte is read past the first one that is too many.
        let want = (limit - taken).min(BUFFER as u64 - 1) as usize + 1;
        let read = match reader.read(&mut buffer[..want]) {
            Ok(0) => return (taken, Ok(bytes)),
            Ok(read) => read,
            Err(_) => break,
        };
        taken += read as u64;
        if taken > limit {
            return (taken, Err(LoadFault::TooLong(taken)));
        }
        if let Err(e) = bytes.extend_from_slice(&buffer[..read]) {
            return (taken, Err(LoadFault::Memory(e)));
        }
    }
    (taken, Err(LoadFault::Failed))
}

/// A writer of the system, as standard output.
#[derive(Drop)]
pub struct StdSink<W> {
    writer: W,
    faults: u64,
}

impl<W: Write> StdSink<W> {
    /// A sink over the writer; nothing has failed.
    pub fn new(writer: W) -> Self
        ensures writer { result.writer ≡ writer }
        ensures faults { result.faults ≡ 0 }
    {
        StdSink { writer, faults: 0 }
    }
}

impl<W: Write> Sink for StdSink<W> {
    // It tells what the writer tells.
    ghost state = { λ s. record { written = W.contents s.writer; faults = s.faults } };

    // A writer that takes nothing of a piece has failed.
    fn write(&mut self, piece: &[u8]) -> Result<usize, SinkFault> {
        match self.writer.write(piece) {
            Ok(n) if n > 0 || piece.is_empty() => Ok(n),
            _ => {
                self.faults = self.faults.saturating_add(1);
                Err(SinkFault::Failed)
            }
        }
    }
}

#[cfg(test)]
mod tests {
    use super::*;
    use crate::put_all;
    use std::io;
    use std::test::Fail;

    // Gives three bytes at the first read, and fails at the second.
    #[derive(Drop)]
    struct Broken {
        reads: u64,
    }

    impl Read for Broken {
        fn read(&mut self, buf: &mut [u8]) -> io::Result<usize> {
            self.reads = self.reads.saturating_add(1);
            if self.reads > 1 {
                return Err(io::Error::from(io::ErrorKind::UnexpectedEof));
            }
            Ok(buf.len().min(3))
        }
    }

    #[test]
    fn files_are_read_up_to_a_limit(rt: HostRuntime) -> Result<(), Fail> {
        let alloc = rt.alloc();
        fs::write(&rt, "five", b"12345".as_slice())?;
        let mut files = DiskFiles::new(&rt);
        let bytes = files.load(alloc, "five", 5)?;
        assert_eq!(rt; bytes.as_slice(), b"12345".as_slice());
        let long = files.load(alloc, "five", 3);
        assert!(rt; matches!(long, Err(LoadFault::TooLong(4))));
        let missing = files.load(alloc, "six", 5);
        assert!(rt; matches!(missing, Err(LoadFault::Failed)));
        let folder = files.load(alloc, ".", 5);
        assert!(rt; matches!(folder, Err(LoadFault::Failed)));
        assert_eq!(rt; files.faults, 2);
        assert_eq!(rt; files.taken, 9);
        Ok(())
    }

    #[test]
    fn a_file_longer_than_the_buffer(rt: HostRuntime) -> Result<(), Fail> {
        let alloc = rt.alloc();
        let text = vec![in alloc; b'x'; 200_000]?;
        fs::write(&rt, "long", text.as_slice())?;
        let mut files = DiskFiles::new(&rt);
        let bytes = files.load(alloc, "long", 200_000)?;
        assert!(rt; bytes.as_slice() == text.as_slice());
        let long = files.load(alloc, "long", 199_999);
        assert!(rt; matches!(long, Err(LoadFault::TooLong(200_000))));
        assert_eq!(rt; files.taken, 400_000);
        Ok(())
    }

    #[test]
    fn a_read_fails_in_mid_stream(rt: HostRuntime) {
        let mut reader = Broken { reads: 0 };
        let (taken, outcome) = read_within(rt.alloc(), &mut reader, 0, 100);
        assert_eq!(rt; taken, 3);
        assert!(rt; matches!(outcome, Err(LoadFault::Failed)));
    }

    // Keeps at most three bytes of a piece, and fails at the write with this number, from 1.
    #[derive(Drop)]
    struct Keeper {
        kept: Vec<u8>,
        writes: u64,
        failing: u64,
    }

    impl Write for Keeper {
        fn write(&mut self, buf: &[u8]) -> io::Result<usize> {
            self.writes = self.writes.saturating_add(1);
            if self.writes == self.failing {
                return Err(io::Error::from(io::ErrorKind::BrokenPipe));
            }
            let n = buf.len().min(3);
            self.kept.extend_from_slice(&buf[..n])?;
            Ok(n)
        }

        fn flush(&mut self) -> io::Result<()> {
            Ok(())
        }
    }

    // The write that fails, and what is kept then of `abcdefgh`.
    const WRITES: [(u64, &[u8]); 4] = [
        (0, b"abcdefgh"),
        (1, b""),
        (3, b"abcdef"),
        (4, b"abcdefgh"),
    ];

    #[test]
    fn a_sink_hands_all_to_its_writer(rt: HostRuntime) {
        for (failing, kept) in WRITES {
            let mut writer = Keeper {
                kept: Vec::new(rt.alloc()),
                writes: 0,
                failing,
            };
            let mut sink = StdSink::new(&mut writer);
            let is_whole = put_all(&mut sink, b"abcdefgh").is_ok();
            assert_eq!(rt; is_whole, kept.len() == 8);
            assert_eq!(rt; sink.faults, u64::from(kept.len() < 8));
            drop(sink);
            assert_eq!(rt; writer.kept.as_slice(), kept, "failing at {failing}");
            drop(writer);
        }
    }

    #[test]
    fn a_piece_is_written(rt: HostRuntime) -> Result<(), Fail> {
        let mut sink = StdSink::new(rt.stdout());
        put_all(&mut sink, b"a piece\n")?;
        assert_eq!(rt; sink.faults, 0);
        Ok(())
    }
}
