use dds_base::memory::Memory;
use dds_frames::decode::decode;
use dds_frames::encode::encode;
use dds_frames::fault::FrameFault;
use dds_frames::reader::FrameReader;
use std::alloc::Global;

/// Frames, and what reading them answers: where the frame ends, or the fault.
const VECTORS: [(&str, Result<usize, FrameFault>); 10] = [
    ("000000020218", Ok(6)),
    ("0000000b0204400000000000000003", Ok(15)),
    (
        "00000024020140000000000000000000000000000000000000000005000000ff0000000000000000",
        Ok(40),
    ),
    ("0000000b02", Err(FrameFault::Short)),
    ("000000010218", Err(FrameFault::BadLength { at: 0 })),
    ("000000020118", Err(FrameFault::BadTag { at: 4 })),
    ("000000020219", Err(FrameFault::BadTag { at: 5 })),
    ("00000003021800", Err(FrameFault::BadField { at: 6 })),
    (
        "0000000b0204300000000000000003",
        Err(FrameFault::BadField { at: 6 }),
    ),
    (
        "00000034020240000000000000000000000000000000000000000000000000ff0000000000000000010003000000000000000500000001aa",
        Ok(56),
    ),
];

/// A frame of each kind of letter, in the order of their tags.
const KINDS: [&str; 24] = [
    "00000024020146fffffffffffffefe000000000100000000000000000800074f0000000080000000",
    "00000030020249ff997a74079918e0005a15137f2e01908454777aba0000004f0000000000000007020d23020000000100000000",
    "0000000b0203400000000000000008",
    "0000000b020440ffffffffffffffff",
    "00000021020500000000000000000000024f06b970d57e573d943f00000000000000020126",
    "0000001802064ef0dd04f3e1c96f7136ffffffffbb225017e3bc07a4",
    "0000000c02074f000000000000000000",
    "0000000c02084fffffff01fffffffe00",
    "0000000c0209404c1d93b748a5e63701",
    "0000000b020a4e0000000000000002",
    "0000000c020b40000009010000000000",
    "0000000d020c4d00000000000000020104",
    "0000000d020d420000000100000000010f",
    "0000000c020e40000000000000000200",
    "0000000c020f4cf7651dd3bdf463f601",
    "0000000e021091480b5efd29a17900000000",
    "000000290211fffffffffffffffe107bfb6e01787547bbd320ff80000000000000003f00000000000000010119",
    "0000000b0212d9310057e3ec817b02",
    "0000000d021330c8d37b66041863080003",
    "0000000e021400000400000000050f35b900",
    "0000000d02150000000000000002010000",
    "00000029021600000000000000070f0000000000000000000500000000000000000300611f3c4c1294bbd60113",
    "0000000d021700000000ffffffff010001",
    "000000020218",
];

/// Two notices.
const STREAM: [u8; 12] = [0, 0, 0, 2, 2, 24, 0, 0, 0, 2, 2, 24];

/// Where the frame at the front of these bytes ends, or its fault.
fn end_in(alloc: Global, bytes: &[u8]) -> Result<usize, FrameFault> {
    match decode(alloc, bytes) {
        Ok((_, end)) => Ok(end),
        Err(fault) => Err(fault),
    }
}

/// Where the frame of these hexadecimal digits ends, or its fault.
fn end_of(alloc: Global, text: &str) -> Result<usize, FrameFault> {
    let Ok(bytes) = hex::decode(alloc, text) else {
        return Err(FrameFault::Memory);
    };
    end_in(alloc, &bytes)
}

#[test]
fn vectors_are_read_as_named(rt: HostRuntime) {
    for (text, expected) in &VECTORS {
        assert_eq!(rt; end_of(rt.alloc(), text), *expected, "at {text}");
    }
}

/// Whether the frame is read to its end, and its letter is written as the same bytes.
fn is_written_as_read(alloc: Global, text: &str) -> bool {
    let Ok(bytes) = hex::decode(alloc, text) else {
        return false;
    };
    let Ok((letter, end)) = decode(alloc, &bytes) else {
        return false;
    };
    let Ok(written) = encode(alloc, &letter) else {
        return false;
    };
    end == bytes.len() && written.as_slice() == bytes.as_slice()
}

#[test]
fn each_kind_is_read_and_written(rt: HostRuntime) {
    for text in &KINDS {
        assert!(rt; is_written_as_read(rt.alloc(), text), "{text}");
    }
}

/// Whether each proper beginning of the frame is too short.
fn is_short_where_cut(alloc: Global, frame: &[u8]) -> bool {
    for end in 0..frame.len() {
        if end_in(alloc, &frame[..end]) != Err(FrameFault::Short) {
            return false;
        }
    }
    true
}

/// Whether the frame is refused at a byte more, which its length counts, and then with the version 0.
fn is_refused_where_changed(alloc: Global, mut frame: Vec<u8>) -> bool {
    let at = frame.len();
    if at < 6 || frame.push(0).is_err() {
        return false;
    }
    frame[3] = frame[3].wrapping_add(1);
    if end_in(alloc, &frame) != Err(FrameFault::BadField { at }) {
        return false;
    }
    frame[4] = 0;
    end_in(alloc, &frame) == Err(FrameFault::BadTag { at: 4 })
}

/// Whether the frame is read as it is alone: cut, lengthened or with another version it is refused.
fn is_read_whole_alone(alloc: Global, text: &str) -> bool {
    let Ok(frame) = hex::decode(alloc, text) else {
        return false;
    };
    is_short_where_cut(alloc, &frame) && is_refused_where_changed(alloc, frame)
}

#[test]
fn each_kind_is_read_whole_alone(rt: HostRuntime) {
    for text in &KINDS {
        assert!(rt; is_read_whole_alone(rt.alloc(), text), "{text}");
    }
}

/// How many letters a reader answers whose stream comes in single bytes.
fn letters_of(alloc: Global, stream: &[u8]) -> Result<u64, Memory> {
    let mut reader = FrameReader::new(alloc);
    let mut letters = 0u64;
    for byte in stream {
        reader.feed(&[*byte])?;
        if matches!(reader.next(), Ok(Some(_))) {
            letters = letters.wrapping_add(1);
        }
    }
    Ok(letters)
}

#[test]
fn a_stream_is_read_in_single_bytes(rt: HostRuntime) {
    assert_eq!(rt; letters_of(rt.alloc(), &STREAM), Ok(2));
}
