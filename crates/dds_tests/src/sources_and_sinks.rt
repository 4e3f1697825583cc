//! Sources and sinks of memory, and those over a reader and a writer.

use dds_base::memory::Failed;
use dds_base::memory_sink::MemorySink;
use dds_base::memory_source::MemorySource;
use dds_base::sink::{Sink, write_all};
use dds_base::source::read_all;
use dds_base::std_edge::{StdSink, StdSource};
use std::test::Fail;

#[test]
fn is_read_to_its_end(rt: HostRuntime) -> Result<(), Fail> {
    let mut source = MemorySource::new(rt.alloc(), b"one\n\nfour\n", &[])?;
    let text = read_all(rt.alloc(), &mut source, 10, 3)?;
    assert_eq!(rt; text.as_slice(), b"one\n\nfour\n".as_slice());
    Ok(())
}

#[test]
fn takes_a_text_in_pieces(rt: HostRuntime) -> Result<(), Fail> {
    let mut sink = MemorySink::new(rt.alloc(), &[], 3, 10)?;
    assert_eq!(rt; write_all(&mut sink, b"0123456789"), Ok(()));
    assert_eq!(rt; sink.written(), b"0123456789".as_slice());
    Ok(())
}

#[test]
fn reads_what_the_reader_gives(rt: HostRuntime) -> Result<(), Fail> {
    let mut source = StdSource::new("two\nlines\n".as_bytes());
    let text = read_all(rt.alloc(), &mut source, 10, 2)?;
    assert_eq!(rt; text.as_slice(), b"two\nlines\n".as_slice());
    Ok(())
}

/// What a sink over this room answers to writes of three bytes, of three more, of one, and of none.
fn answers(room: &mut [u8]) -> [Result<usize, Failed>; 4] {
    let mut sink = StdSink::new(room);
    [
        sink.write(b"abc"),
        sink.write(b"def"),
        sink.write(b"g"),
        sink.write(b""),
    ]
}

#[test]
fn writes_to_the_writer(rt: HostRuntime) {
    let mut room = [0; 4];
    assert_eq!(rt; answers(&mut room), [Ok(3), Ok(1), Err(Failed), Ok(0)]);
    assert_eq!(rt; room, *b"abcd");
    assert_eq!(rt; StdSink::new(&mut room[..]).flush(), Ok(()));
}
