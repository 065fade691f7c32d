//! Bodies of PROTOCOL-WEB.md and their statuses.

use proto_base::{Limit, Limits};
use reflect_requests::{Frames, read_frames};
use std::alloc::{AllocError, Global};

/// A frame with a request for a file.
const ONE: &[u8] = b"\x00\x00\x00\x00\x09\x1A\x07a.proto";
/// Two of them.
const TWO: &[u8] = b"\x00\x00\x00\x00\x09\x1A\x07a.proto\x00\x00\x00\x00\x09\x1A\x07b.proto";
/// One, and the flag of a compressed frame.
const COMPRESSED: &[u8] = b"\x00\x00\x00\x00\x09\x1A\x07a.proto\x01";
/// A frame that is cut short.
const CUT: &[u8] = b"\x00\x00\x00\x00\x09\x1A\x07";
/// A frame of 14 bytes, one of 5 and one of 9.
const THREE: &[u8] =
    b"\x00\x00\x00\x00\x09\x1A\x07a.proto\x00\x00\x00\x00\x00\x00\x00\x00\x00\x04\x0A\x02hi";

/// Bodies under the standard limits, and the status and the messages of each.
static BODIES: [(&[u8], u8, &[&[u8]]); 17] = [
    (b"", 0, &[]),
    (
        b"\x00\x00\x00\x00\x09\x1A\x07a.proto\x00\x00\x00\x00\x09\x1A\x07b.proto\x00\x00\x00\x00\x09\x1A\x07a.proto",
        0,
        &[b"\x1A\x07a.proto", b"\x1A\x07b.proto", b"\x1A\x07a.proto"],
    ),
    (
        b"\x00\x00\x00\x00\x09\x1A\x07a.proto\x00\x00\x00\x00\x09\x1A\x07c.proto",
        0,
        &[b"\x1A\x07a.proto", b"\x1A\x07c.proto"],
    ),
    (b"\x00\x00\x00\x00\x05\x22\x03q.X", 0, &[b"\x22\x03q.X"]),
    (b"\x00\x00\x00\x00\x00", 0, &[b""]),
    (
        b"\x00\x00\x00\x00\x0B\x1A\x07a.proto:\x00",
        0,
        &[b"\x1A\x07a.proto:\x00"],
    ),
    (
        b"\x00\x00\x00\x00\x0C\x0A\x01h\x1A\x07b.proto",
        0,
        &[b"\x0A\x01h\x1A\x07b.proto"],
    ),
    // A frame that is cut, one that is compressed, and unknown flags.
    (
        b"\x00\x00\x00\x00\x09\x1A\x07a.proto\x00\x00\x00",
        13,
        &[b"\x1A\x07a.proto"],
    ),
    (COMPRESSED, 12, &[b"\x1A\x07a.proto"]),
    (b"\x02\x00\x00\x00\x00", 13, &[]),
    (b"\x80\x00\x00\x00\x00", 13, &[]),
    // Nothing is read behind a message that is no request.
    (
        b"\x00\x00\x00\x00\x09\x1A\x07a.proto\x00\x00\x00\x00\x01\x08\x00\x00\x00\x00\x09\x1A\x07b.proto",
        3,
        &[b"\x1A\x07a.proto"],
    ),
    (b"\x00\x00\x00\x00\x04\x2A\x02\x0A\x05", 3, &[]),
    // A length of 65,536 is allowed, and one more isn't.
    (b"\x00\x00\x01\x00\x00", 13, &[]),
    (b"\x00\x00\x01\x00\x01", 8, &[]),
    (b"\x00\x01\x00\x00\x00", 8, &[]),
    (b"\x00\x00\x00\x00\x02\x08", 13, &[]),
];

/// Bodies under one lower limit.
static LIMITED: [(Limit, u64, &[u8], u8, &[&[u8]]); 9] = [
    (Limit::MessageBytes, 9, ONE, 0, &[b"\x1A\x07a.proto"]),
    (Limit::MessageBytes, 8, ONE, 8, &[]),
    (Limit::MessageBytes, 8, CUT, 8, &[]),
    (
        Limit::Requests,
        2,
        TWO,
        0,
        &[b"\x1A\x07a.proto", b"\x1A\x07b.proto"],
    ),
    (Limit::Requests, 1, TWO, 8, &[b"\x1A\x07a.proto"]),
    (Limit::Requests, 1, COMPRESSED, 8, &[b"\x1A\x07a.proto"]),
    (Limit::Requests, 1, ONE, 0, &[b"\x1A\x07a.proto"]),
    (Limit::BodyBytes, 14, ONE, 0, &[b"\x1A\x07a.proto"]),
    (Limit::BodyBytes, 13, ONE, 8, &[]),
];

/// How many zeros a body is: the number of its messages, all empty, and its status.
static ZEROS: [(usize, usize, u8); 5] = [
    (81_920, 16_384, 0),
    (81_921, 16_384, 8),
    (1_048_575, 16_384, 8),
    (1_048_576, 16_384, 8),
    (1_048_577, 0, 8),
];

/// Whether frames have this status and these messages.
fn have(frames: &Frames, status: u8, messages: &[&[u8]]) -> bool {
    for (message, wanted) in frames.messages.iter().zip(messages) {
        if *message != *wanted {
            return false;
        }
    }
    frames.status == status && frames.messages.len() == messages.len()
}

/// Whether a body has this status and these messages.
fn is_read(alloc: Global, body: &[u8], limits: &Limits, status: u8, messages: &[&[u8]]) -> bool {
    match read_frames(alloc, body, limits) {
        Ok(frames) => have(&frames, status, messages),
        Err(AllocError) => false,
    }
}

#[test]
fn bodies(rt: HostRuntime) {
    let standard = Limits::standard();
    for (body, status, messages) in &BODIES {
        let is_right = is_read(rt.alloc(), body, &standard, *status, messages);
        assert!(rt; is_right, "at {body:?}");
    }
}

#[test]
fn limited_bodies(rt: HostRuntime) {
    for (limit, value, body, status, messages) in &LIMITED {
        let is_right = match Limits::standard().lowered(*limit, *value) {
            Some(limits) => is_read(rt.alloc(), body, &limits, *status, messages),
            None => false,
        };
        assert!(rt; is_right, "at {body:?}");
    }
}

#[test]
fn first_bytes(rt: HostRuntime) {
    let standard = Limits::standard();
    for flag in 0..=255_u8 {
        let status = if flag == 1 { 12 } else { 13 };
        assert!(rt;
            is_read(rt.alloc(), &[flag], &standard, status, &[]),
            "at {flag}"
        );
    }
}

/// The messages of the three frames.
static MESSAGES: [&[u8]; 3] = [b"\x1A\x07a.proto", b"", b"\x0A\x02hi"];

/// The status of the three frames cut after so many bytes, and how many messages they are.
fn cut_after(len: usize) -> (u8, usize) {
    match len {
        0 => (0, 0),
        1..=13 => (13, 0),
        14 => (0, 1),
        15..=18 => (13, 1),
        19 => (0, 2),
        20..=27 => (13, 2),
        _ => (0, 3),
    }
}

/// A body cut after each of its bytes.
#[test]
fn cut_bodies(rt: HostRuntime) {
    let standard = Limits::standard();
    for len in 0..=THREE.len() {
        let (status, count) = cut_after(len);
        let messages = &MESSAGES[..count.min(3)];
        let is_right = is_read(rt.alloc(), &THREE[..len], &standard, status, messages);
        assert!(rt; is_right, "after {len}");
    }
}

/// Whether so many zeros are so many messages, with this status.
fn are_zeros(alloc: Global, row: (usize, usize, u8)) -> Result<bool, AllocError> {
    let (len, count, status) = row;
    let body = vec![in alloc; 0; len]?;
    let frames = read_frames(alloc, &body, &Limits::standard())?;
    Ok(frames.messages.len() == count && frames.status == status)
}

#[test]
fn long_bodies(rt: HostRuntime) -> Result<(), AllocError> {
    for row in &ZEROS {
        assert!(rt; are_zeros(rt.alloc(), *row)?, "{}", row.0);
    }
    Ok(())
}
