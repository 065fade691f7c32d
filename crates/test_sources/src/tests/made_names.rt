//! Names that are made, by hand from the language guide's rules.

use super::expect;
use proto_lower::{entry_name, json_name, oneof_name};
use std::alloc::AllocGlobal;
use std::process::Abort;

/// Names of fields, and their JSON names.
static JSON_NAMES: &str = "a_b=aB _a=A a_1b=a1b Ab_=Ab a__b=aB a_B=aB Ab=Ab __=";

/// Names of map fields, and of their entries.
static ENTRIES: &str = "my_map=MyMapEntry m=MEntry _m=MEntry M_1a=M1aEntry a_=AEntry";

/// Names of fields, the names that are taken, and the names of their oneofs.
static ONEOFS: [(&str, &[&str], &str); 5] = [
    ("a", &["a"], "_a"),
    ("a", &["a", "_a"], "X_a"),
    ("a", &["_a", "XX_a", "X_a", "a"], "XXX_a"),
    ("_a", &[], "_a"),
    ("_a", &["_a", "X_a"], "XX_a"),
];

fn json_names<R: AllocGlobal + Abort>(rt: &R) {
    for row in JSON_NAMES.split(' ') {
        let (name, wanted) = row.split_once('=').expect(rt, "a row");
        let made = json_name(rt.alloc(), name).expect(rt, "memory");
        expect(rt, row, made.as_str(), wanted);
    }
}

fn entries<R: AllocGlobal + Abort>(rt: &R) {
    for row in ENTRIES.split(' ') {
        let (name, wanted) = row.split_once('=').expect(rt, "a row");
        let made = entry_name(rt.alloc(), name).expect(rt, "memory");
        expect(rt, row, made.as_str(), wanted);
    }
}

fn oneofs<R: AllocGlobal + Abort>(rt: &R) {
    for (name, taken, wanted) in &ONEOFS {
        let made = oneof_name(rt.alloc(), name, taken).expect(rt, "memory");
        expect(rt, name, made.as_str(), wanted);
    }
}

#[test]
fn made_names(rt: HostRuntime) {
    json_names(&rt);
    entries(&rt);
    oneofs(&rt);
}
