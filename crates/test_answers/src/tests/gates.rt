//! Workers that are held until another has come.

use super::fixtures::{THREE_FILES, compiled_by};
use proto_base::Limits;
use reflect_core::Mode;
use schema_headline::response_to_sources;
use share_work::phases::{DESCRIBING, MARKING, REPLYING, RESOLVING, WRITING};
use share_work::{Gate, NoGate, Plan};
use std::alloc::AllocGlobal;
use std::process::Abort;
use std::sync::atomic::{AtomicU64, Ordering};
use std::thread::Threads;

/// How often the worker of piece 0 looks for that of piece 1 before the test fails.
const TURNS: u64 = 1_000_000_000;

/// Requests for two files.
const BODY: &[u8] = b"\x00\x00\x00\x00\x09\x1A\x07a.proto\x00\x00\x00\x00\x09\x1A\x07b.proto";

/// Holds piece 0 of a phase until piece 1 has entered.
#[derive(Drop)]
struct Held {
    phase: u8,
    entered: AtomicU64,
    missed: AtomicU64,
}

impl Gate for Held {
    fn enter(&self, phase: u8, piece: u64) {
        if phase != self.phase {
            return;
        }
        if piece == 1 {
            self.entered.store(1, Ordering::SeqCst);
            return;
        }
        for _turn in 0..TURNS {
            if self.entered.load(Ordering::SeqCst) == 1 {
                return;
            }
        }
        self.missed.store(1, Ordering::SeqCst);
    }
}

/// A gate that holds the pieces of a phase.
fn holding(phase: u8) -> Held {
    Held {
        phase,
        entered: AtomicU64::new(0),
        missed: AtomicU64::new(0),
    }
}

/// The set of the three files by the workers of a plan.
fn set_by<R, G>(rt: &R, plan: Plan, gate: &G) -> Vec<u8>
where
    R: Threads + AllocGlobal + Abort + Sync,
    G: Gate + Sync,
{
    let compiled = compiled_by(rt, &Limits::standard(), plan, gate);
    compiled.set_bytes(rt.alloc()).expect(rt, "memory")
}

/// Two workers.
fn two_workers<R: Abort>(rt: &R) -> Plan {
    Plan::new(2, 1).expect(rt, "a plan")
}

/// Whether the workers of a gate met, and found what one finds alone.
fn have_met(gate: &Held, found: &[u8], alone: &[u8]) -> bool {
    gate.missed.load(Ordering::SeqCst) == 0 && found == alone
}

/// Sources are described, types resolved and descriptors written, each by two workers at once, and the set is that of one.
#[test]
fn compilers_meet(rt: HostRuntime) {
    let alone = set_by(&rt, Plan::single(), &NoGate);
    for phase in [DESCRIBING, RESOLVING, WRITING] {
        let gate = holding(phase);
        let found = set_by(&rt, two_workers(&rt), &gate);
        assert!(rt; have_met(&gate, &found, &alone), "phase {phase}");
    }
}

/// The response to the body by the workers of a plan.
fn response_by<R, G>(rt: &R, plan: Plan, gate: &G) -> Vec<u8>
where
    R: Threads + AllocGlobal + Abort + Sync,
    G: Gate + Sync,
{
    let limits = Limits::standard();
    response_to_sources(rt, &THREE_FILES, &limits, plan, gate, Mode::Once, BODY).expect(
        rt,
        "a response",
    )
}

/// Marks and replies are each made by two workers at once, and the response is that of one.
#[test]
fn workers_meet(rt: HostRuntime) {
    let alone = response_by(&rt, Plan::single(), &NoGate);
    for phase in [MARKING, REPLYING] {
        let gate = holding(phase);
        let found = response_by(&rt, two_workers(&rt), &gate);
        assert!(rt; have_met(&gate, &found, &alone), "phase {phase}");
    }
}
