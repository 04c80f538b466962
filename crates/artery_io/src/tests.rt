use super::*;
use artery_base::{Bytes, Numbers};
use std::alloc::Global;
use std::test::*;

// Helpers with no clauses, so that a test's proof does not follow what is read and held.

fn numbers(alloc: Global, list: &[u64]) -> Option<Numbers> {
    let mut numbers = Numbers::new(alloc);
    for number in list {
        numbers.push(*number).ok()?;
    }
    Some(numbers)
}

/// What eight reads of four bytes each give: how many bytes, or 9 where one fails.
fn reads<S: Source>(source: &mut S) -> [u64; 8] {
    let mut counts = [0; 8];
    let mut buffer = [0u8; 4];
    for count in counts.iter_mut() {
        *count = match source.read(&mut buffer) {
            Ok(read) => read as u64,
            Err(Failed) => 9,
        };
    }
    counts
}

/// What three writes of "abc" give: how many bytes were taken, or 9 where one fails.
fn writes<K: Sink>(sink: &mut K) -> [u64; 3] {
    let mut counts = [0; 3];
    for count in counts.iter_mut() {
        *count = match sink.write(b"abc") {
            Ok(taken) => taken as u64,
            Err(Failed) => 9,
        };
    }
    counts
}

fn memory_reads(alloc: Global, failing: &[u64]) -> Option<[u64; 8]> {
    let bytes = Bytes::from_slice(alloc, b"0123456789").ok()?;
    let mut source = MemSource::new(bytes, numbers(alloc, failing)?);
    Some(reads(&mut source))
}

fn memory_writes(alloc: Global, failing: &[u64]) -> Option<([u64; 3], Bytes)> {
    let mut sink = MemSink::new(alloc, numbers(alloc, failing)?);
    let counts = writes(&mut sink);
    Some((counts, sink.bytes().clone().ok()?))
}

#[test]
fn calls_fail_by_their_numbers(rt: HostRuntime) -> Result<(), Fail> {
    let alloc = rt.alloc();
    assert_eq!(rt; memory_reads(alloc, &[]), Some([4, 4, 2, 0, 0, 0, 0, 0]));
    assert_eq!(rt;
        memory_reads(alloc, &[1, 3]),
        Some([9, 4, 9, 4, 2, 0, 0, 0])
    );
    let (counts, held) = memory_writes(alloc, &[2]).ok_or("memory is left")?;
    assert_eq!(rt; counts, [3, 9, 3]);
    assert_eq!(rt; held.as_slice(), b"abcabc".as_slice());
    Ok(())
}

#[test]
fn free_objects_never_fail(rt: HostRuntime) -> Result<(), Fail> {
    let bytes = Bytes::from_slice(rt.alloc(), b"012345")
        .ok()
        .ok_or("memory is left")?;
    assert_eq!(rt;
        reads(&mut FreeSource::new(bytes)),
        [4, 2, 0, 0, 0, 0, 0, 0]
    );
    assert_eq!(rt; writes(&mut FreeSink::new()), [3, 3, 3]);
    Ok(())
}

/// A reader that gives two bytes and then fails.
#[derive(Drop)]
struct Broken {
    left: u64,
}

impl std::io::Read for Broken {
    fn read(&mut self, buffer: &mut [u8]) -> std::io::Result<usize> {
        if self.left == 0 || buffer.is_empty() {
            return Err(std::io::Error::from(std::io::ErrorKind::BrokenPipe));
        }
        self.left -= 1;
        buffer[0] = b'x';
        Ok(1)
    }
}

/// A writer that takes two bytes, and then nothing.
#[derive(Drop)]
struct Full {
    room: u64,
}

impl std::io::Write for Full {
    fn write(&mut self, buffer: &[u8]) -> std::io::Result<usize> {
        if self.room == 0 || buffer.is_empty() {
            return Ok(0);
        }
        self.room -= 1;
        Ok(1)
    }

    fn flush(&mut self) -> std::io::Result<()> {
        Ok(())
    }
}

#[test]
fn adapters_tell_each_fault(rt: HostRuntime) -> Result<(), Fail> {
    assert_eq!(rt;
        reads(&mut StdSource::new(Broken { left: 2 })),
        [1, 1, 9, 9, 9, 9, 9, 9]
    );
    assert_eq!(rt; writes(&mut StdSink::new(Full { room: 2 })), [1, 1, 9]);
    let mut sink = StdSink::new(Full { room: 2 });
    assert_eq!(rt; write_all(&mut sink, b"abc"), Err(Failed));
    Ok(())
}
