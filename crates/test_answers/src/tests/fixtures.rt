//! Sources, and what they are compiled to.

use proto_base::Limits;
use proto_compile::{Compiled, Source, compile};
use share_work::{Gate, NoGate, Plan};
use std::alloc::AllocGlobal;
use std::process::Abort;
use std::thread::Threads;

/// The first and the third import the second, which declares a service.
pub(super) static THREE_FILES: [Source<'static>; 3] = [
    Source {
        name: "a.proto",
        text: b"syntax = \"proto3\"; import \"b.proto\";",
    },
    Source {
        name: "b.proto",
        text: b"syntax = \"proto3\"; package p; service S {}",
    },
    Source {
        name: "c.proto",
        text: b"syntax = \"proto3\"; import \"b.proto\";",
    },
];

/// What the three files are compiled to.
pub(super) fn compiled<R>(rt: &R, limits: &Limits) -> Compiled
where
    R: Threads + AllocGlobal + Abort + Sync,
{
    compiled_by(rt, limits, Plan::single(), &NoGate)
}

/// The same, by the workers of a plan.
pub(super) fn compiled_by<R, G>(rt: &R, limits: &Limits, plan: Plan, gate: &G) -> Compiled
where
    R: Threads + AllocGlobal + Abort + Sync,
    G: Gate + Sync,
{
    compile(rt, &THREE_FILES, limits, plan, gate).expect(rt, "a compilation")
}
