//! Places, kinds, limits and faults, and the list and the text of trees.

use super::expect;
use proto_base::row::Row;
use proto_base::text::Text;
use proto_base::{Fault, Kind, Limit, Limits, Place, line_column};
use std::alloc::{AllocError, AllocGlobal, Global};
use std::borrow::CowStr;
use std::process::Abort;

/// Texts, offsets in them, and the lines and columns there.
static PLACES: [(&[u8], u32, (u32, u32)); 11] = [
    (b"", 0, (1, 1)),
    (b"ab", 0, (1, 1)),
    (b"ab", 2, (1, 3)),
    (b"a\nb", 1, (1, 2)),
    (b"a\nb", 2, (2, 1)),
    (b"a\nb", 3, (2, 2)),
    (b"\n\n", 2, (3, 1)),
    (b"a\r\nb", 2, (1, 3)),
    (b"a\r\nb", 3, (2, 1)),
    (b"\n\xC3\xA9x", 3, (2, 3)),
    (b"\xEF\xBB\xBFa", 3, (1, 4)),
];

static KINDS: [(Kind, u8, &str); 14] = [
    (Kind::NotUtf8, 1, "NotUtf8"),
    (Kind::BadByte, 2, "BadByte"),
    (Kind::FileTooLong, 8, "FileTooLong"),
    (Kind::Unexpected, 10, "Unexpected"),
    (Kind::UnexpectedEnd, 14, "UnexpectedEnd"),
    (Kind::NotProto3Syntax, 20, "NotProto3Syntax"),
    (Kind::ReservedBackwards, 32, "ReservedBackwards"),
    (Kind::NameTooLong, 41, "NameTooLong"),
    (Kind::ImportMissing, 50, "ImportMissing"),
    (Kind::ImportCycle, 51, "ImportCycle"),
    (Kind::NameTwice, 60, "NameTwice"),
    (Kind::FileNameTwice, 63, "FileNameTwice"),
    (Kind::TypeNotFound, 70, "TypeNotFound"),
    (Kind::SetTooLong, 74, "SetTooLong"),
];

static LIMITS: [(Limit, u64); 11] = [
    (Limit::FileBytes, 4_194_304),
    (Limit::Files, 16_384),
    (Limit::Depth, 64),
    (Limit::NameBytes, 255),
    (Limit::FullNameBytes, 1_023),
    (Limit::Names, 1_048_576),
    (Limit::DescriptorBytes, 16_777_216),
    (Limit::SetBytes, 1_073_741_824),
    (Limit::BodyBytes, 1_048_576),
    (Limit::MessageBytes, 65_536),
    (Limit::Requests, 16_384),
];

/// Faults in their order: pass, file, step, place, kind.
static FAULTS: [(u8, &str, u8, u32, Kind); 11] = [
    (0, "", 0, 0, Kind::TooManyFiles),
    (0, "a", 0, 0, Kind::FileNameTwice),
    (1, "Z", 2, 9, Kind::NameTooLong),
    (1, "a", 0, 5, Kind::FileTooLong),
    (1, "a", 1, 0, Kind::UnexpectedEnd),
    (1, "a", 1, 3, Kind::Unexpected),
    (1, "a", 1, 3, Kind::UnexpectedEnd),
    (1, "a", 1, 4, Kind::Unexpected),
    (1, "a.b", 0, 0, Kind::NotUtf8),
    (1, "\u{e9}", 0, 0, Kind::NotUtf8),
    (2, "", 0, 0, Kind::ImportMissing),
];

/// The line and the column of an offset, which stands in its text.
fn found_at(text: &[u8], offset: u32) -> Option<(u32, u32)> {
    if offset as usize > text.len() || offset >= 100 {
        return None;
    }
    Some(line_column(text, Place { offset }))
}

#[test]
fn places(rt: HostRuntime) {
    for (text, offset, wanted) in &PLACES {
        assert!(rt; found_at(text, *offset) == Some(*wanted), "{offset}");
    }
}

#[test]
fn kinds(rt: HostRuntime) {
    for (kind, number, name) in &KINDS {
        let shown = format!(in rt.alloc(); "{kind}").expect(&rt, "memory");
        expect(&rt, name, shown.as_str(), name);
        assert!(rt; kind.name() == *name && kind.number() == *number);
    }
}

/// Whether this is a limit's standard value, and it is lowered to nothing above it and not to 0.
fn is_standard(limit: Limit, value: u64) -> bool {
    let standard = Limits::standard();
    let same = standard.lowered(limit, value);
    let (Some(same), Some(least)) = (same, standard.lowered(limit, 1)) else {
        return false;
    };
    let above = standard.lowered(limit, value.saturating_add(1));
    standard.get(limit) == value
        && same.get(limit) == value
        && above.is_none()
        && standard.lowered(limit, 0).is_none()
        && least.get(limit) == 1
        && least.lowered(limit, 2).is_none()
}

#[test]
fn limits(rt: HostRuntime) {
    for (limit, value) in &LIMITS {
        assert!(rt; is_standard(*limit, *value), "{limit:?}");
    }
}

/// The faults of the table.
fn faults<R: AllocGlobal + Abort>(rt: &R) -> Vec<Fault> {
    let mut faults = Vec::new(rt.alloc());
    for (pass, file, step, offset, kind) in &FAULTS {
        let fault = Fault {
            pass: *pass,
            file: String::from_str(rt.alloc(), file).expect(rt, "memory"),
            step: *step,
            place: Place { offset: *offset },
            kind: *kind,
        };
        faults.push(fault).expect(rt, "memory");
    }
    faults
}

/// Compares the order of the fault at a place with each with that of their places.
fn expect_order(rt: &impl Abort, faults: &[Fault], i: usize, fault: &Fault) {
    for (j, other) in faults.iter().enumerate() {
        assert!(rt; fault.order(other) == i.cmp(&j), "{i} and {j}");
    }
}

#[test]
fn order_of_faults(rt: HostRuntime) {
    let faults = faults(&rt);
    for (i, fault) in faults.iter().enumerate() {
        expect_order(&rt, &faults, i, fault);
    }
}

/// Whether a copy of a text is `ab`, and is borrowed as the text is.
fn is_copied(alloc: Global, text: &Text, borrows: bool) -> Result<bool, AllocError> {
    let copy = text.try_clone(alloc)?;
    let is_same = copy.as_str() == "ab";
    Ok(is_same && matches!(&copy.into_cow(), CowStr::Borrowed(_)) == borrows)
}

#[test]
fn texts(rt: HostRuntime) {
    assert!(rt; is_copied(rt.alloc(), &Text::borrowed("ab"), true) == Ok(true));
    let owned = String::from_str(rt.alloc(), "ab").expect(&rt, "memory");
    assert!(rt; is_copied(rt.alloc(), &Text::owned(owned), false) == Ok(true));
}

#[test]
fn rows(rt: HostRuntime) {
    let none: Row<u8> = Row::new(rt.alloc());
    let row = Row::from_vec([1, 2, 3].to_vec(rt.alloc()).expect(&rt, "memory"));
    let place = row.iter().position(|item| *item == 2);
    assert!(rt; none.is_empty() && !row.is_empty() && row.len() == 3 && place == Some(1));
    assert!(rt; row.as_slice() == [1, 2, 3].as_slice());
    assert!(rt; row.into_vec().as_slice() == [1, 2, 3].as_slice());
}
