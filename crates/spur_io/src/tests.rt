// What no clause says: that the calls go through with memory at hand, and what the system's files and writers get.
use crate::{
    CallKind, FileFault, Files, MemoryFiles, MemorySink, RealFiles, RealOut, Sink, SinkFault,
    read_full,
};
use std::cell::Cell;
use std::io::{Error, ErrorKind, Write};
use std::test::Fail;
use std::{env, fs, io, process};

const FAILED: FileFault = FileFault::Failed;

#[test]
fn files_hold_what_was_added(rt: HostRuntime) -> Result<(), Fail> {
    let mut files = MemoryFiles::new(rt.alloc())?;
    let mut into = [0u8; 4];
    assert_eq!(rt;
        files.read_at("a", 0, &mut into)?,
        0,
        "a missing name is empty"
    );
    files.begin("a")?;
    files.append("a", b"spur")?;
    files.append("b", b"image")?;
    files.append("a", b"-32")?;
    assert_eq!(rt; files.read_at("a", 2, &mut into)?, 4);
    assert_eq!(rt; &into, b"ur-3");
    assert_eq!(rt; files.read_at("a", 6, &mut into)?, 1);
    assert_eq!(rt; &into, b"2r-3");
    assert_eq!(rt; files.read_at("a", 7, &mut into)?, 0);
    files.begin("a")?;
    assert_eq!(rt; files.read_at("a", 0, &mut into)?, 0);
    assert_eq!(rt; files.read_at("b", 0, &mut into)?, 4);
    assert_eq!(rt; (files.read_faults(), files.write_faults()), (0, 0));
    Ok(())
}

#[test]
fn a_listed_call_fails_and_changes_nothing(rt: HostRuntime) -> Result<(), Fail> {
    let mut files = MemoryFiles::new(rt.alloc())?;
    let mut into = [0u8; 4];
    files.append("a", b"ab")?;
    files.fail_calls(rt.alloc(), CallKind::Append, 2)?;
    files.fail_calls(rt.alloc(), CallKind::Append, 3)?;
    files.fail_calls(rt.alloc(), CallKind::Begin, 1)?;
    files.fail_calls(rt.alloc(), CallKind::Read, 2)?;
    files.append("a", b"c")?;
    assert_eq!(rt; files.append("a", b"d"), Err(FAILED));
    assert_eq!(rt; files.append("a", b"e"), Err(FAILED));
    assert_eq!(rt; files.begin("a"), Err(FAILED));
    assert_eq!(rt; files.read_at("a", 0, &mut into), Ok(3));
    assert_eq!(rt; files.read_at("a", 0, &mut into), Err(FAILED));
    assert_eq!(rt; (files.read_faults(), files.write_faults()), (1, 3));
    files.append("a", b"f")?;
    assert_eq!(rt; files.read_at("a", 0, &mut into), Ok(4));
    assert_eq!(rt; &into, b"abcf");
    files.begin("a")?;
    assert_eq!(rt; files.read_at("a", 0, &mut into), Ok(0));
    Ok(())
}

#[test]
fn a_listed_put_fails_and_adds_nothing(rt: HostRuntime) -> Result<(), Fail> {
    let mut sink = MemorySink::new(rt.alloc())?;
    sink.put(b"done\n")?;
    sink.fail_put(rt.alloc(), 2)?;
    sink.put(b"42\n")?;
    assert_eq!(rt; sink.put(b"lost\n"), Err(SinkFault::Failed));
    sink.put(b"nil\n")?;
    assert_eq!(rt; sink.bytes(), b"done\n42\nnil\n".as_slice());
    assert_eq!(rt; sink.faults(), 1);
    Ok(())
}

#[test]
fn a_file_is_read_whole_over_short_reads(rt: HostRuntime) -> Result<(), Fail> {
    let mut files = MemoryFiles::new(rt.alloc())?;
    files.append("a", b"0123456")?;
    files.limit_reads(1);
    let mut into = [0u8; 4];
    assert_eq!(rt; files.read_at("a", 0, &mut into)?, 1);
    assert_eq!(rt; read_full(&mut files, "a", 1, &mut into)?, 4);
    assert_eq!(rt; &into, b"1234");
    files.limit_reads(3);
    assert_eq!(rt; read_full(&mut files, "a", 4, &mut into)?, 3);
    assert_eq!(rt; &into[..3], b"456".as_slice());
    assert_eq!(rt; read_full(&mut files, "a", 8, &mut into)?, 0);
    assert_eq!(rt; read_full(&mut files, "a", 0, &mut [])?, 0);
    files.fail_calls(rt.alloc(), CallKind::Read, 2)?;
    assert_eq!(rt;
        read_full(&mut files, "a", 0, &mut into),
        Err(FAILED),
        "no short answer"
    );
    Ok(())
}

// Tells its sizes, and fails from a write on.
#[derive(Drop)]
struct Writer<'a> {
    writes: &'a Cell<u32>,
    smallest: &'a Cell<usize>,
    total: &'a Cell<usize>,
    failing_from: u32,
}

impl<'a> Write for Writer<'a> {
    fn write(&mut self, buf: &[u8]) -> io::Result<usize> {
        let writes = self.writes.get().saturating_add(1);
        self.writes.set(writes);
        if writes >= self.failing_from {
            return Err(Error::from(ErrorKind::BrokenPipe));
        }
        self.smallest.set(self.smallest.get().min(buf.len()));
        self.total.set(self.total.get().saturating_add(buf.len()));
        Ok(buf.len())
    }

    fn flush(&mut self) -> io::Result<()> {
        Ok(())
    }
}

#[test]
fn output_comes_in_large_pieces(rt: HostRuntime) -> Result<(), Fail> {
    let (writes, smallest, total) = (Cell::new(0), Cell::new(usize::MAX), Cell::new(0));
    let writer = Writer {
        writes: &writes,
        smallest: &smallest,
        total: &total,
        failing_from: u32::MAX,
    };
    let mut out = RealOut::new(rt.alloc(), writer)?;
    for _ in 0..200 {
        out.put(&[7u8; 1000])?;
    }
    assert_eq!(rt;
        (writes.get(), smallest.get(), total.get()),
        (3, 65536, 196608)
    );
    out.put(&[8u8; 200000])?;
    assert_eq!(rt;
        (writes.get(), smallest.get(), total.get()),
        (5, 65536, 400000)
    );
    out.put(b"end")?;
    out.finish()?;
    out.finish()?;
    assert_eq!(rt; (writes.get(), smallest.get(), total.get()), (6, 3, 400003));
    assert_eq!(rt; out.faults(), 0);
    Ok(())
}

#[test]
fn output_that_failed_goes_on_failing(rt: HostRuntime) -> Result<(), Fail> {
    let (writes, smallest, total) = (Cell::new(0), Cell::new(usize::MAX), Cell::new(0));
    let writer = Writer {
        writes: &writes,
        smallest: &smallest,
        total: &total,
        failing_from: 2,
    };
    let mut out = RealOut::new(rt.alloc(), writer)?;
    out.put(&[7u8; 65536])?;
    out.put(b"waits")?;
    assert_eq!(rt; out.finish(), Err(SinkFault::Failed));
    assert_eq!(rt; out.put(b""), Err(SinkFault::Failed));
    assert_eq!(rt; out.finish(), Err(SinkFault::Failed));
    assert_eq!(rt; (out.faults(), writes.get(), total.get()), (3, 2, 65536));
    Ok(())
}

#[test]
fn real_files_hold_what_was_added(rt: HostRuntime) -> Result<(), Fail> {
    let name = format!(in rt.alloc(); "spur-io-test-{}", process::id(rt.process()))?;
    let folder = env::temp_dir(&rt)?;
    let path = folder.join(rt.alloc(), name.as_str())?;
    let mut files = RealFiles::new(rt.alloc(), rt.clone()?);
    let mut into = [0u8; 4];
    files.begin(path.as_str())?;
    files.append(path.as_str(), b"spur")?;
    assert_eq!(rt; files.read_at(path.as_str(), 0, &mut into), Ok(4));
    files.append(path.as_str(), b"-32")?;
    assert_eq!(rt; files.read_at(path.as_str(), 4, &mut into), Ok(3));
    assert_eq!(rt; &into, b"-32r");
    assert_eq!(rt; files.read_at(path.as_str(), 2, &mut into), Ok(4));
    assert_eq!(rt; &into, b"ur-3");
    assert_eq!(rt; files.read_at(path.as_str(), 6, &mut into), Ok(1));
    files.begin(path.as_str())?;
    assert_eq!(rt; files.read_at(path.as_str(), 0, &mut into), Ok(0));
    assert_eq!(rt;
        files.read_at(folder.as_str(), 0, &mut into),
        Err(FAILED),
        "a folder"
    );
    assert_eq!(rt;
        files.append(folder.as_str(), b"x"),
        Err(FAILED),
        "a folder"
    );
    fs::remove_file(&rt, path.as_str())?;
    assert_eq!(rt;
        files.read_at(path.as_str(), 0, &mut into),
        Err(FAILED),
        "a missing file"
    );
    assert_eq!(rt; (files.read_faults(), files.write_faults()), (2, 1));
    Ok(())
}
