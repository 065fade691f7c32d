//! Connections that are open at once, up to so many.

ghost use Rattle.std.specs.Prelude.{◌≡◌, ◌<◌, ◌⊎◌, ◌↔◌, IsTrue, IfOk, Some, false};
ghost use Rattle.futures.specs.Queued.{IsEmptySet, set_len};
ghost use Rattle.futures.specs.Task.{Covers, Keeps};
ghost use Rattle.http_connection.specs.Connections.{CanServe, HaveCome, IsListening, IsStillServing, next_count, running_source};

use crate::journal::{End, Ended, Journal, Progress};
use crate::serve_fault::ServeFault;
use crate::trouble::ServeTrouble;
use futures::stream::FuturesUnordered;
use futures::task::{Context, Poll};
use futures::{Future, Stream, ready};
use std::alloc::{AllocError, Global};

/// How many connections end or begin in one poll, before the runtime gets its turn.
const TURNS: u32 = 128;

/// Serves what arrives, so many at once at most, and gives how many have begun, once they are as many as it was told and all of
/// them have ended.
///
/// Where nothing can arrive although connections are open, these may hold what it takes: it is asked for again when one of them
/// has ended. Where none is open, that is the fault.
#[derive(Drop)]
pub(crate) struct Connections<S, F, J> {
    arrivals: S,
    journal: J,
    running: FuturesUnordered<F>,
    /// How many may be open at once.
    most: usize,
    begun: u64,
    /// With how many it ends. Without a count it goes on.
    total: Option<u64>,
    /// Nothing could arrive, and none of those that were open then has ended.
    is_refused: bool,
}

impl<S, F, J> Connections<S, F, J>
where
    S: Stream<Item = Result<F, ServeTrouble>>,
    F: Future<Output = Ended>,
    J: Journal,
{
    pub(crate) fn new(
        alloc: Global,
        arrivals: S,
        journal: J,
        most: usize,
        total: Option<u64>,
    ) -> Result<Connections<S, F, J>, AllocError>
        ensures { IfOk result (λ c. (c.arrivals ≡ arrivals) × IsEmptySet c.running × (c.most ≡ most)
            × (c.total ≡ total)) }
    {
        Ok(Connections {
            arrivals,
            journal,
            running: FuturesUnordered::new(alloc)?,
            most,
            begun: 0,
            total,
            is_refused: false,
        })
    }

    fn have_all_begun(&self) -> bool
        ensures { IsTrue result ↔ (self.now.total ≡ Some self.now.begun) }
    {
        self.total == Some(self.begun)
    }

    /// Lets those that are open go on, and says whether one of them has ended.
    fn poll_running(&mut self, cx: &mut Context<'_>) -> bool
        requires { CanServe S.can_poll S.yields F.can_poll self.old }
        ensures again { CanServe S.can_poll S.yields F.can_poll self.new }
        ensures same { IsStillServing self.old self.old.begun self.new }
        ensures registered { result ≡ false
            → ((set_len self.new.running ≡ 0) × (self.new.is_refused ≡ false))
            ⊎ Covers cx.new (running_source self.new) }
        ensures kept { Keeps cx.old cx.new }
    {
        if self.running.is_empty() {
            self.is_refused = false;
            return false;
        }
        match self.running.poll_next(cx) {
            Poll::Ready(Some(ended)) => {
                self.journal.note(&ended);
                self.is_refused = false;
                true
            }
            Poll::Ready(None) => unreachable!(),
            Poll::Pending => false,
        }
    }

    /// Begins a connection. One that finds no memory ends at once.
    fn begin(&mut self, connection: F)
        requires can_serve { CanServe S.can_poll S.yields F.can_poll self.old }
        requires can_poll { F.can_poll connection }
        ensures again { CanServe S.can_poll S.yields F.can_poll self.new }
        ensures counted { IsStillServing self.old (next_count self.old.begun) self.new }
    {
        self.begun = self.begun.saturating_add(1);
        if self.running.push(connection).is_err() {
            self.journal.note(&Ended {
                progress: Progress::NotAsked,
                end: End::NoMemory,
            });
        }
    }
}

impl<S, F, J> Future for Connections<S, F, J>
where
    S: Stream<Item = Result<F, ServeTrouble>>,
    F: Future<Output = Ended>,
    J: Journal,
{
    type Output = Result<u64, ServeTrouble>;

    ghost can_poll = { CanServe S.can_poll S.yields F.can_poll };

    ghost needs = { λ c s. ((0 < set_len c.running) × running_source c s)
        ⊎ (IsListening c × S.needs c.arrivals s) };

    ghost gives = { λ c r. IfOk r (λ count. (c.total ≡ Some count) × HaveCome S.yields c count) };

    fn poll(&mut self, cx: &mut Context<'_>) -> Poll<Result<u64, ServeTrouble>> {
        for _ in 0..TURNS {
            if self.poll_running(cx) {
                continue;
            }
            if self.have_all_begun() {
                if self.running.is_empty() {
                    return Poll::Ready(Ok(self.begun));
                }
                return Poll::Pending;
            }
            if self.is_refused || self.running.len() >= self.most {
                return Poll::Pending;
            }
            match ready!(self.arrivals.poll_next(cx)) {
                Some(Ok(connection)) => self.begin(connection),
                Some(Err(trouble)) => {
                    if self.running.is_empty() {
                        return Poll::Ready(Err(trouble));
                    }
                    self.is_refused = true;
                    return Poll::Pending;
                }
                None => return Poll::Ready(Err(ServeFault::AcceptFault.into())),
            }
        }
        cx.yield_now()
    }
}
