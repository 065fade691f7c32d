//! Requests of `reflection.proto`, and messages that are none.

use reflect_requests::{Ask, Request, read_request};
use std::alloc::Global;
use wire_format::WireError;

/// Messages, and of each the host, what it asks for, and of which name.
static MESSAGES: [(&[u8], &str, &str, &str); 21] = [
    (b"", "", "Nothing", ""),
    (b"\x0A\x01h", "h", "Nothing", ""),
    (b"\x1A\x07a.proto", "", "FileByName", "a.proto"),
    (b"\x1A\x00", "", "FileByName", ""),
    (b"\x22\x03q.X", "", "FileBySymbol", "q.X"),
    (b"\x2A\x03\x0A\x01A", "", "FileByExtension", "A"),
    (b"\x2A\x00", "", "FileByExtension", ""),
    (b"\x32\x01A", "", "ExtensionNumbers", "A"),
    (b"\x3A\x00", "", "ListServices", ""),
    (b"\x3A\x01*", "", "ListServices", ""),
    (b"\x0A\x01h\x1A\x07b.proto", "h", "FileByName", "b.proto"),
    // The last host and the last member count.
    (b"\x0A\x01h\x0A\x01k", "k", "Nothing", ""),
    (b"\x1A\x07a.proto\x22\x03p.S", "", "FileBySymbol", "p.S"),
    (b"\x1A\x07a.proto\x3A\x00", "", "ListServices", ""),
    (
        b"\x3A\x00\x1A\x07a.proto\x0A\x00",
        "",
        "FileByName",
        "a.proto",
    ),
    // Other numbers are skipped, whatever they hold.
    (b"\x12\x01\xFF\x1A\x01a\x42\x01\xFF", "", "FileByName", "a"),
    // So are known numbers with another wire type.
    (b"\x08\x01\x1D....\x39........", "", "Nothing", ""),
    (b"\x1A\x01a\x28\x01", "", "FileByName", "a"),
    // The same inside a request for an extension, where `extension_number` is no string.
    (b"\x2A\x02\x08\x01", "", "FileByExtension", ""),
    (b"\x2A\x03\x12\x01\xFF", "", "FileByExtension", ""),
    (b"\x2A\x02\x10\x07", "", "FileByExtension", ""),
];

/// Requests for an extension, and of each the message and the number.
static EXTENSIONS: [(&[u8], &str, u32); 5] = [
    (b"\x2A\x05\x0A\x01A\x10\x64", "A", 100),
    (b"\x2A\x02\x10\x07", "", 7),
    // Of each field the last counts, and of the members the last.
    (b"\x2A\x0A\x10\x01\x0A\x01A\x0A\x01B\x10\x02", "B", 2),
    (b"\x2A\x03\x0A\x01A\x2A\x02\x10\x07", "", 7),
    // The lower 32 bits.
    (
        b"\x2A\x0B\x10\xFF\xFF\xFF\xFF\xFF\xFF\xFF\xFF\xFF\x01",
        "",
        4_294_967_295,
    ),
];

/// What is no request.
static MALFORMED: [&[u8]; 14] = [
    // No rows of fields.
    b"\x08",
    b"\x0B",
    b"\x02\x00",
    b"\x10\xFF\xFF\xFF\xFF\xFF\xFF\xFF\xFF\xFF\x02",
    // No UTF-8, also where another host or member follows.
    b"\x0A\x01\xFF",
    b"\x0A\x01\xFF\x0A\x01h",
    b"\x1A\x01\xFF",
    b"\x22\x01\xFF\x1A\x01a",
    b"\x32\x01\xFF",
    b"\x3A\x01\xFF",
    // Inside a request for an extension.
    b"\x2A\x02\x0A\x05",
    b"\x2A\x01\x0B",
    b"\x2A\x03\x0A\x01\xFF",
    b"\x2A\x03\x0A\x01\xFF\x2A\x00",
];

/// Whether a request has this host, and asks for this.
fn asks(request: &Request, host: &str, wanted: &str, name: &str) -> bool {
    let (found, found_name) = match request.ask {
        Ask::FileByName(name) => ("FileByName", name),
        Ask::FileBySymbol(symbol) => ("FileBySymbol", symbol),
        Ask::FileByExtension {
            containing_type,
            ..
        } => ("FileByExtension", containing_type),
        Ask::ExtensionNumbers(name) => ("ExtensionNumbers", name),
        Ask::ListServices => ("ListServices", ""),
        Ask::Nothing => ("Nothing", ""),
    };
    request.host == host && found == wanted && found_name == name
}

/// Whether a message is a request that has this host, and asks for this.
fn is_read(alloc: Global, message: &[u8], host: &str, wanted: &str, name: &str) -> bool {
    match read_request(alloc, message) {
        Ok(request) => asks(&request, host, wanted, name),
        Err(_) => false,
    }
}

/// Whether a message asks for the extension of this number, of this message.
fn asks_extension(alloc: Global, message: &[u8], wanted: &str, wanted_number: u32) -> bool {
    match read_request(alloc, message) {
        Ok(
            Request {
                ask: Ask::FileByExtension {
                    containing_type,
                    number,
                },
                ..
            },
        ) => containing_type == wanted && number == wanted_number,
        _ => false,
    }
}

#[test]
fn extensions(rt: HostRuntime) {
    for (message, wanted, number) in &EXTENSIONS {
        assert!(rt; asks_extension(rt.alloc(), message, wanted, *number));
    }
}

#[test]
fn requests(rt: HostRuntime) {
    for (message, host, wanted, name) in &MESSAGES {
        let is_right = is_read(rt.alloc(), message, host, wanted, name);
        assert!(rt; is_right, "at {message:?}");
    }
}

#[test]
fn malformed(rt: HostRuntime) {
    for message in &MALFORMED {
        let found = read_request(rt.alloc(), message);
        assert!(rt;
            matches!(found, Err(WireError::Malformed)),
            "at {message:?}"
        );
    }
}
