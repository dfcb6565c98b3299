//! Readers and writers of std as devices, and devices that fail.

use log_file::*;
use log_record::{Format, read_line};
use mem_op::CoreId;
use std::alloc::Global;
use std::io;
use std::io::{ErrorKind, Read, Write};
use std::test::Fail;

/// A reader and writer of std that always fails.
#[derive(Drop)]
struct Broken;

impl Read for Broken {
    fn read(&mut self, _buf: &mut [u8]) -> io::Result<usize> {
        Err(io::Error::from(ErrorKind::BrokenPipe))
    }
}

impl Write for Broken {
    fn write(&mut self, _buf: &[u8]) -> io::Result<usize> {
        Ok(0)
    }

    fn flush(&mut self) -> io::Result<()> {
        Ok(())
    }
}

#[test]
fn readers_of_std(rt: HostRuntime) {
    let mut buf = [0; 4];
    let mut source = FromRead::new(b"abcdef".as_slice());
    for count in [4, 2, 0] {
        assert_eq!(rt; source.read(&mut buf), Ok(count));
    }
    assert_eq!(rt; (buf, source.failures()), (*b"efcd", 0));
    let mut broken = FromRead::new(Broken);
    let read = ByteSource::read(&mut broken, &mut buf);
    assert_eq!(rt; (read, broken.failures()), (Err(ReadFailed), 1));
}

#[test]
fn writers_of_std(rt: HostRuntime) {
    let mut sink = FromWrite::new(Vec::new(rt.alloc()));
    assert_eq!(rt; sink.write(b"abc"), Ok(3));
    assert_eq!(rt; (sink.write(b""), sink.failures()), (Ok(0), 0));
    let mut broken = FromWrite::new(Broken);
    let written = ByteSink::write(&mut broken, b"abc");
    assert_eq!(rt; (written, broken.failures()), (Err(WriteFailed), 1));
}

#[test]
fn each_write_fails_in_turn(rt: HostRuntime) -> Result<(), Fail> {
    let log = b"tardis-log 1 core 0 of 1\nS 5 7 1 0\nL 5 7 1 1 0.0\nS 5 8 1 1\nend 3\n";
    let records = [
        read_line(Format::One, b"S 5 7 1 0")?,
        read_line(Format::One, b"L 5 7 1 1 0.0")?,
        read_line(Format::One, b"S 5 8 1 1")?,
    ];
    let ten = Step::Move(9);
    let steps = [ten, ten, ten, ten, Step::Fail];
    for (steps, taken) in [
        (&steps[..], 40),
        (&steps[1..], 30),
        (&steps[2..], 20),
        (&steps[3..], 10),
        (&steps[4..], 0),
    ] {
        let mut sink = MemSink::new(rt.alloc(), steps);
        let core = CoreId::at(0);
        let written = write_log(rt.alloc(), &mut sink, Format::One, core, 1, &records);
        assert_eq!(rt; written, Err(LogWriteFault::Write));
        assert_eq!(rt; log.get(..taken), Some(sink.bytes()));
    }
    Ok(())
}

/// How many records the long log has: enough for several pieces.
const RECORDS: usize = 16_384;

/// More reads than the long log needs.
const READS: usize = 16;

/// The log of a core alone that stores to one word again and again.
fn long_log(alloc: Global) -> Result<String, Fail> {
    let mut text = String::from_str(alloc, "tardis-log 1 core 0 of 1\n")?;
    for ts in 0..RECORDS {
        writeln!(text, "S 0 1 {ts} 0")?;
    }
    writeln!(text, "end {RECORDS}")?;
    Ok(text)
}

/// How many records a log is read as if a read fails after this many others, and how many reads have failed then.
fn length_where_one_fails(
    alloc: Global,
    text: &str,
    read: usize,
) -> Result<(Result<usize, LogFault>, u64), Fail> {
    let mut steps = vec![in alloc; Step::Move(usize::MAX); read]?;
    steps.push(Step::Fail)?;
    let mut source = MemSource::new(text.as_bytes(), &steps);
    let log = read_log(alloc, &mut source, CoreId::at(0), 1);
    Ok((log.map(|log| log.len()), source.failures()))
}

#[test]
fn each_read_of_a_long_log_fails_in_turn(rt: HostRuntime) -> Result<(), Fail> {
    let text = long_log(rt.alloc())?;
    for read in 0..=READS {
        let (answer, failures) = length_where_one_fails(rt.alloc(), &text, read)?;
        let is_due = match answer {
            Err(fault) => read < READS && fault == LogFault::Read && failures == 1,
            Ok(count) => read > 0 && count == RECORDS && failures == 0,
        };
        assert!(rt; is_due, "read {read}");
    }
    Ok(())
}
