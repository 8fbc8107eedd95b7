use super::shown_lines::same;
use pawn_base::Memory;
use pawn_outside::{
    Files, HostFiles, HostSink, MemoryFiles, MemorySink, PutAnswer, ReadAnswer, Sink, SinkFault,
    WriteAnswer, say,
};
use std::alloc::Global;
use std::cell::Cell;
use std::fmt::Display;
use std::test::Fail;
use std::{fs, io};

/// What a read answered: the bytes, or why there are none.
fn told(answer: &ReadAnswer) -> &[u8] {
    match answer {
        ReadAnswer::Got(bytes) => bytes.as_slice(),
        ReadAnswer::Missing => b"missing",
        ReadAnswer::TooLarge => b"too large",
        ReadAnswer::Failed => b"failed",
        ReadAnswer::Memory => b"memory",
    }
}

/// Whether a read through the trait alone answers so.
fn is_told<F: Files>(files: &mut F, alloc: Global, name: &str, limit: u64, want: &[u8]) -> bool {
    same(told(&files.read(alloc, name, limit)), want)
}

/// A name, a limit, and what a read answers.
type Read = (&'static str, u64, &'static str);

/// Whether reads in this order answer so.
fn are_told(files: &mut MemoryFiles, alloc: Global, reads: &[Read]) -> bool {
    for (name, limit, want) in reads {
        if !is_told(files, alloc, *name, *limit, want.as_bytes()) {
            return false;
        }
    }
    true
}

/// Files of which the fifth and the sixth call fail.
fn failing_files(alloc: Global) -> Result<MemoryFiles, Memory> {
    let mut files = MemoryFiles::new(alloc, &[5, 6])?;
    files.hold("a", b"one")?;
    files.hold("b", b"")?;
    files.hold("a", b"two!")?;
    Ok(files)
}

/// The first five calls.
const FIRST: [Read; 5] = [
    ("a", 4, "two!"),
    ("a", 3, "too large"),
    ("b", 0, ""),
    ("c", 9, "missing"),
    ("a", 4, "failed"),
];

/// Whether puts answer as they should.
fn are_put(files: &mut MemoryFiles) -> bool {
    let failed = files.put("a", b"3") == PutAnswer::Failed;
    let kept = files.put("c", b"4") == PutAnswer::Kept;
    failed && kept && files.put("e", b"") == PutAnswer::Kept
}

/// The last three calls.
const LAST: [Read; 3] = [("e", 0, ""), ("c", 1, "4"), ("a", 9, "two!")];

#[test]
fn files_in_memory(rt: HostRuntime) -> Result<(), Fail> {
    let mut files = failing_files(rt.alloc())?;
    let are_first = are_told(&mut files, rt.alloc(), &FIRST);
    let are_last = are_put(&mut files) && are_told(&mut files, rt.alloc(), &LAST);
    assert!(rt; are_first && are_last && files.faults() == 2 && files.calls() == 11);
    Ok(())
}

/// Whether eight writes to a sink with room for twelve bytes, of which the third fails, answer so.
fn are_taken(out: &mut MemorySink) -> bool {
    let is_said = say(out, &[b"done ", b"7"]).is_ok();
    let failed = out.write(b"listed") == WriteAnswer::Failed;
    let full = out.write(b"too long") == WriteAnswer::Failed;
    let taken = out.write(b"") == WriteAnswer::Taken;
    is_said && failed && full && taken && say(out, &[b" more", b"!", b"!"]) == Err(SinkFault)
}

#[test]
fn a_sink_in_memory(rt: HostRuntime) -> Result<(), Fail> {
    let mut out = MemorySink::new(rt.alloc(), 12, &[3])?;
    let are_taken = are_taken(&mut out) && same(out.bytes(), b"done 7 more!");
    assert!(rt; are_taken && out.faults() == 3 && out.calls() == 8);
    Ok(())
}

/// Whether so many bytes are put and read back, and too large where the limit is one less.
fn is_kept<F: Files>(
    files: &mut F,
    alloc: Global,
    name: &str,
    size: usize,
) -> Result<bool, Memory> {
    let bytes = vec![in alloc; b'x'; size]?;
    let is_put = files.put(name, bytes.as_slice()) == PutAnswer::Kept;
    let is_back = is_told(files, alloc, name, size as u64, bytes.as_slice());
    let is_large = match size.checked_sub(1) {
        Some(less) => is_told(files, alloc, name, less as u64, b"too large"),
        None => true,
    };
    Ok(is_put && is_back && is_large)
}

#[test]
fn files_of_the_host(rt: HostRuntime) -> Result<(), Fail> {
    let name = "sulkhen-host-files";
    let mut files = HostFiles::new(&rt);
    let small = is_kept(&mut files, rt.alloc(), name, 0)?;
    let single = is_kept(&mut files, rt.alloc(), name, 1)?;
    let large = is_kept(&mut files, rt.alloc(), name, 70_000)?;
    fs::remove_file(&rt, name)?;
    let missing = is_told(&mut files, rt.alloc(), name, 4, b"missing");
    assert!(rt; small && single && large && missing);
    Ok(())
}

#[test]
fn a_folder_of_the_host(rt: HostRuntime) -> Result<(), Fail> {
    let name = "sulkhen-host-folder";
    let mut files = HostFiles::new(&rt);
    fs::create_dir(&rt, name)?;
    let failed = is_told(&mut files, rt.alloc(), name, 4, b"failed");
    let refused = files.put(name, b"kept") == PutAnswer::Failed;
    fs::remove_dir(&rt, name)?;
    assert!(rt; failed && refused);
    Ok(())
}

/// A printer that counts the bytes that it is given.
#[derive(Drop)]
struct Counter {
    count: Cell<usize>,
}

impl Print for Counter {
    fn print<D: Display + Drop>(&self, _value: D) -> io::Result<()> {
        Ok(())
    }

    fn println<D: Display + Drop>(&self, _value: D) -> io::Result<()> {
        Ok(())
    }

    fn write_all(&self, bytes: &[u8]) -> io::Result<()> {
        self.count.set(self.count.get().saturating_add(bytes.len()));
        Ok(())
    }
}

#[test]
fn the_sink_of_the_host(rt: HostRuntime) -> Result<(), Fail> {
    let mut shown = HostSink::new(&rt);
    let is_written = shown.write(b"written\n") == WriteAnswer::Taken;
    let counter = Counter {
        count: Cell::new(0),
    };
    let mut out = HostSink::new(&counter);
    let line = vec![in rt.alloc(); b'x'; 70_000usize]?;
    let is_said = say(&mut out, &[line.as_slice(), b"\n"]).is_ok();
    assert!(rt; is_written && is_said && counter.count.get() == 70_001);
    Ok(())
}
