//! Each result is that of the inner reader or writer.

use lsp_stream::{CallEnd, Sink, Source, StopReader, StopWriter, Told};
use std::alloc::Global;
use std::io::ErrorKind;
use std::test::Fail;

/// A read of at most 4 bytes: its bytes or its error, whether it failed, and whether it came to the
/// end.
type Read = (Result<&'static [u8], ErrorKind>, bool, bool);

static READS: [Read; 8] = [
    (Ok(b"ab"), false, false),
    (Err(ErrorKind::Interrupted), false, false),
    (Err(ErrorKind::Other), true, false),
    (Ok(b"c"), false, false),
    (Ok(b"defg"), false, false),
    (Ok(b"h"), false, false),
    (Ok(b""), false, true),
    (Ok(b""), false, true),
];

static READ_SCRIPT: [CallEnd; 5] = [
    CallEnd::Take(2),
    CallEnd::Interrupt,
    CallEnd::Fail,
    CallEnd::Take(0),
    CallEnd::Take(9),
];

/// Returns whether these are the bytes, and zeros after them.
fn holds(buf: &[u8], bytes: &[u8]) -> bool {
    buf.starts_with(bytes) && buf.iter().skip(bytes.len()).all(|byte| *byte == 0)
}

/// Returns whether the next read ends as this row says.
fn reads_so(reader: &mut Told<StopReader>, read: &Read) -> bool {
    let (wanted, failed, ended) = *read;
    let mut buf = [0u8; 4];
    let answer = Source::read(reader, &mut buf).map_err(|error| error.kind());
    answer == wanted.map(|bytes| bytes.len())
        && holds(&buf, wanted.unwrap_or(b""))
        && (Source::failed(reader), reader.ended()) == (failed, ended)
}

/// Returns whether all reads end as their rows say, and are counted.
fn read_so(reader: &mut Told<StopReader>, reads: &[Read]) -> bool {
    let mut calls = 0u64;
    for read in reads {
        calls = calls.saturating_add(1);
        if !reads_so(reader, read) || Source::calls(reader) != calls {
            return false;
        }
    }
    true
}

#[test]
fn reads_answer_what_the_inner_ones_do(rt: HostRuntime) {
    let mut reader = Told::new(StopReader::new(b"abcdefgh", &READ_SCRIPT, CallEnd::Take(1)));
    assert_eq!(rt; (Source::failed(&reader), reader.ended()), (false, false));
    assert_eq!(rt; Source::calls(&reader), 0);
    assert!(rt; read_so(&mut reader, &READS));
    // A read without room is never at the end.
    assert_eq!(rt; Source::read(&mut reader, &mut []).ok(), Some(0));
    assert_eq!(rt; (Source::calls(&reader), reader.ended()), (9, false));
}

static WRITE_SCRIPT: [CallEnd; 4] = [
    CallEnd::Take(2),
    CallEnd::Interrupt,
    CallEnd::Take(0),
    CallEnd::Fail,
];

/// What a write of `abc` returns, and whether it failed.
static WRITES: [(Result<usize, ErrorKind>, bool); 5] = [
    (Ok(2), false),
    (Err(ErrorKind::Interrupted), false),
    (Ok(0), true),
    (Err(ErrorKind::Other), true),
    (Ok(3), false),
];

/// Returns whether all writes end as their rows say, and are counted.
fn write_so(writer: &mut Told<StopWriter>, writes: &[(Result<usize, ErrorKind>, bool)]) -> bool {
    let mut calls = 0u64;
    for (wanted, failed) in writes {
        calls = calls.saturating_add(1);
        let answer = Sink::write(writer, b"abc").map_err(|error| error.kind());
        if answer != *wanted || (Sink::failed(writer), Sink::calls(writer)) != (*failed, calls) {
            return false;
        }
    }
    true
}

#[test]
fn writes_answer_what_the_inner_ones_do(rt: HostRuntime) -> Result<(), Fail> {
    let mut writer = Told::new(StopWriter::new(rt.alloc(), &WRITE_SCRIPT, CallEnd::Take(9)));
    assert_eq!(rt; (Sink::failed(&writer), Sink::calls(&writer)), (false, 0));
    assert!(rt; write_so(&mut writer, &WRITES));
    assert_eq!(rt; Sink::write(&mut writer, b"").ok(), Some(0));
    assert!(rt; !Sink::failed(&writer));
    assert_eq!(rt; writer.into_inner().bytes(), b"ababc".as_slice());
    Ok(())
}

static FLUSH_SCRIPT: [CallEnd; 3] = [CallEnd::Take(0), CallEnd::Interrupt, CallEnd::Fail];

/// What a flush returns, whether it failed, and how many have succeeded then.
static FLUSHES: [(Result<(), ErrorKind>, bool, usize); 4] = [
    (Ok(()), false, 1),
    (Err(ErrorKind::Interrupted), false, 1),
    (Err(ErrorKind::Other), true, 1),
    (Ok(()), false, 2),
];

/// Returns whether after these flushes the calls are counted, and the inner writer has so many
/// flushes and bytes.
fn flush_so(
    alloc: Global,
    flushes: &[(Result<(), ErrorKind>, bool, usize)],
) -> Option<(u64, usize, usize)> {
    let mut writer = Told::new(StopWriter::new(alloc, &FLUSH_SCRIPT, CallEnd::Take(9)));
    for (wanted, failed, _) in flushes {
        let answer = Sink::flush(&mut writer).map_err(|error| error.kind());
        if answer != *wanted || Sink::failed(&writer) != *failed {
            return None;
        }
    }
    let calls = Sink::calls(&writer);
    let inner = writer.into_inner();
    Some((calls, inner.flushes(), inner.bytes().len()))
}

#[test]
fn flushes_answer_what_the_inner_ones_do(rt: HostRuntime) {
    for n in 0..4 {
        let first = FLUSHES.get(..n + 1).unwrap_or(&[]);
        let flushed = first.last().map_or(0, |flush| flush.2);
        let calls = first.len() as u64;
        assert_eq!(rt; flush_so(rt.alloc(), first), Some((calls, flushed, 0)));
    }
}
