ghost use Rattle.std.specs.Prelude.{◌≡◌, IfOk};

use sidb_io::{
    Event, Failed, Gate, MemSink, MemSource, NoGate, ReadAllFault, RealSink, RealSource, Sink,
    Source, SteadySink, SteadySource, read_all, write_all,
};
use std::io::{ErrorKind, Read, Write};
use std::test::Fail;
use std::{fs, io};

/// A writer that takes one byte a call.
#[derive(Drop)]
struct ByteWriter {
    bytes: Vec<u8>,
}

impl Write for ByteWriter {
    fn write(&mut self, piece: &[u8]) -> io::Result<usize> {
        if piece.is_empty() {
            return Ok(0);
        }
        match self.bytes.push(piece[0]) {
            Ok(()) => Ok(1),
            Err(_) => Err(io::Error::from(ErrorKind::OutOfMemory)),
        }
    }

    fn flush(&mut self) -> io::Result<()> {
        Ok(())
    }
}

/// A writer that takes each piece, and whose flush fails.
#[derive(Drop)]
struct UnflushedWriter {
    bytes: Vec<u8>,
}

impl Write for UnflushedWriter {
    fn write(&mut self, piece: &[u8]) -> io::Result<usize> {
        match self.bytes.extend_from_slice(piece) {
            Ok(()) => Ok(piece.len()),
            Err(_) => Err(io::Error::from(ErrorKind::OutOfMemory)),
        }
    }

    fn flush(&mut self) -> io::Result<()> {
        Err(io::Error::from(ErrorKind::Other))
    }
}

/// What fails at its first call, with the kind of error that others try again, and would serve any
/// later one: gives a byte, or takes the piece.
#[derive(Drop)]
struct FailsFirst {
    calls: u64,
}

impl FailsFirst {
    fn turn(&mut self, served: usize) -> io::Result<usize>
        ensures { IfOk result (λ n. n ≡ served) }
    {
        self.calls = self.calls.saturating_add(1);
        if self.calls == 1 {
            return Err(io::Error::from(ErrorKind::Interrupted));
        }
        Ok(served)
    }
}

impl Read for FailsFirst {
    fn read(&mut self, buf: &mut [u8]) -> io::Result<usize> {
        self.turn(buf.len().min(1))
    }
}

impl Write for FailsFirst {
    fn write(&mut self, piece: &[u8]) -> io::Result<usize> {
        self.turn(piece.len())
    }

    fn flush(&mut self) -> io::Result<()> {
        Ok(())
    }
}

// Six bytes by two are three reads that give and one that finds the end.
#[test]
fn each_read_is_refused_in_turn(rt: HostRuntime) -> Result<(), Fail> {
    let table = [
        (0, 6, Some(ReadAllFault::ReadFault)),
        (1, 6, Some(ReadAllFault::ReadFault)),
        (2, 6, Some(ReadAllFault::ReadFault)),
        (3, 6, Some(ReadAllFault::ReadFault)),
        (4, 6, None),
        (4, 5, Some(ReadAllFault::TooLong)),
    ];
    for (refused, limit, fault) in table {
        let bytes = b"abcdef".as_slice().to_vec(rt.alloc())?;
        let fails = [refused].as_slice().to_vec(rt.alloc())?;
        let mut source = MemSource::new(bytes, 2, fails);
        match read_all(rt.alloc(), &mut source, limit) {
            Ok(all) => {
                assert_eq!(rt; fault, None);
                assert_eq!(rt; all.as_slice(), b"abcdef".as_slice());
            }
            Err(other) => assert_eq!(rt; fault, Some(other)),
        }
    }
    let mut steady = SteadySource::new(b"abc".as_slice().to_vec(rt.alloc())?);
    let all = read_all(rt.alloc(), &mut steady, 3);
    assert!(rt; all.is_ok_and(|all| all.as_slice() == b"abc".as_slice()));
    Ok(())
}

// Six bytes by two are three writes; a room for three bytes takes one whole and a half.
#[test]
fn each_write_is_refused_in_turn(rt: HostRuntime) -> Result<(), Fail> {
    let table: [(u64, usize, &[u8]); 5] = [
        (0, 6, b""),
        (1, 6, b"ab"),
        (2, 6, b"abcd"),
        (3, 6, b"abcdef"),
        (3, 3, b"abc"),
    ];
    for (refused, room, want) in table {
        let room = Vec::with_capacity(rt.alloc(), room)?;
        let mut sink = MemSink::new(room, 2, [refused].as_slice().to_vec(rt.alloc())?);
        let whole = write_all(&mut sink, b"abcdef".as_slice()).is_ok();
        assert_eq!(rt; whole, want.len() == 6);
        assert_eq!(rt; sink.written(), want);
    }
    assert_eq!(rt; SteadySink::new().write(b"abc".as_slice()), Ok(3));
    NoGate.at(0, Event::Claim);
    Ok(())
}

// Through a pipe; a directory is not read.
#[test]
fn reads_the_real(rt: HostRuntime) -> Result<(), Fail> {
    let (reader, mut writer) = io::pipe(&rt)?;
    io::Write::write_all(&mut writer, b"abc".as_slice())?;
    drop(writer);
    let all = read_all(rt.alloc(), &mut RealSource::new(reader), 3);
    assert!(rt; all.is_ok_and(|all| all.as_slice() == b"abc".as_slice()));
    let mut folder = RealSource::new(fs::open(&rt, "/")?);
    assert_eq!(rt; folder.read(&mut [0; 4]), Err(Failed));
    Ok(())
}

// Through a pipe; what was opened for reading is not written.
#[test]
fn writes_the_real(rt: HostRuntime) -> Result<(), Fail> {
    let (mut reader, writer) = io::pipe(&rt)?;
    assert!(rt; write_all(&mut RealSink::new(writer), b"abc".as_slice()).is_ok());
    let mut block = [0; 4];
    let given = io::Read::read(&mut reader, &mut block)?;
    assert_eq!(rt; given, 3);
    assert_eq!(rt; block.as_slice(), b"abc\0".as_slice());
    let mut closed = RealSink::new(fs::open(&rt, "/dev/null")?);
    assert_eq!(rt; closed.write(b"abc".as_slice()), Err(Failed));
    Ok(())
}

// A short read is none that fails, and none is made up.
#[test]
fn reads_in_pieces(rt: HostRuntime) -> Result<(), Fail> {
    let pieces = b"abc".as_slice().chain(b"de".as_slice());
    let mut source = RealSource::new(pieces);
    assert_eq!(rt; source.read(&mut [0; 2]), Ok(2));
    let all = read_all(rt.alloc(), &mut source, 3);
    assert!(rt; all.is_ok_and(|all| all.as_slice() == b"cde".as_slice()));
    Ok(())
}

// A short write is none that fails: the rest is written by the next.
#[test]
fn writes_byte_by_byte(rt: HostRuntime) -> Result<(), Fail> {
    let mut writer = ByteWriter {
        bytes: Vec::new(rt.alloc()),
    };
    assert!(rt; write_all(&mut RealSink::new(&mut writer), b"abc".as_slice()).is_ok());
    assert_eq!(rt; writer.bytes.as_slice(), b"abc".as_slice());
    assert_eq!(rt; RealSink::new(&mut writer).write(b"de".as_slice()), Ok(1));
    Ok(())
}

// What is taken and not flushed is a failed write, and isn't written again.
#[test]
fn finds_a_failed_flush(rt: HostRuntime) -> Result<(), Fail> {
    let mut writer = UnflushedWriter {
        bytes: Vec::new(rt.alloc()),
    };
    assert!(rt; write_all(&mut RealSink::new(&mut writer), b"abc".as_slice()).is_err());
    assert_eq!(rt; writer.bytes.as_slice(), b"abc".as_slice());
    Ok(())
}

// The first read fails: it is made once, and the buffer stays; so is the first of a whole input.
#[test]
fn a_failed_first_read_is_the_only_one(rt: HostRuntime) -> Result<(), Fail> {
    let mut reader = FailsFirst { calls: 0 };
    let mut block = [7, 8];
    let failed = RealSource::new(&mut reader).read(&mut block);
    assert_eq!(rt; failed, Err(Failed));
    assert_eq!(rt; (reader.calls, block), (1, [7, 8]));
    let mut reader = FailsFirst { calls: 0 };
    let all = read_all(rt.alloc(), &mut RealSource::new(&mut reader), 6);
    assert!(rt; all.is_err_and(|fault| fault == ReadAllFault::ReadFault));
    assert_eq!(rt; reader.calls, 1);
    Ok(())
}

// The first write fails: it is made once, of one piece and of a whole output. The next is served.
#[test]
fn a_failed_first_write_is_the_only_one(rt: HostRuntime) -> Result<(), Fail> {
    let mut writer = FailsFirst { calls: 0 };
    let failed = RealSink::new(&mut writer).write(b"abc".as_slice());
    assert_eq!(rt; (failed, writer.calls), (Err(Failed), 1));
    assert_eq!(rt; RealSink::new(&mut writer).write(b"abc".as_slice()), Ok(3));
    let mut writer = FailsFirst { calls: 0 };
    let whole = write_all(&mut RealSink::new(&mut writer), b"abc".as_slice());
    assert_eq!(rt; (whole, writer.calls), (Err(Failed), 1));
    Ok(())
}
