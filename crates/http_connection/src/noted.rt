//! What is noted of a connection, from its service to its end.

ghost use Rattle.std.specs.Prelude.{◌≡◌};

use crate::journal::{End, Ended, Progress};
use futures::task::{Context, Poll};
use futures::{Future, ready};
use std::alloc::{AllocError, Global};
use std::cell::Cell;
use std::rc::Rc;

/// How far the request of a connection has come, as its service notes it. Where no journal is kept, nothing is noted.
#[derive(Drop)]
pub(crate) struct Notes {
    progress: Option<Rc<Cell<Progress>>>,
}

impl Notes {
    /// The notes of a connection that begins.
    pub(crate) fn new(alloc: Global, is_kept: bool) -> Result<Notes, AllocError> {
        if !is_kept {
            return Ok(Notes { progress: None });
        }
        match Rc::new(alloc, Cell::new(Progress::NotAsked)) {
            Ok(progress) => Ok(Notes {
                progress: Some(progress),
            }),
            Err(_) => Err(AllocError),
        }
    }

    /// The same notes, for another who writes them.
    pub(crate) fn share(&self) -> Notes {
        match &self.progress {
            Some(progress) => Notes {
                progress: progress.clone().ok(),
            },
            None => Notes { progress: None },
        }
    }

    pub(crate) fn put(&self, progress: Progress) {
        if let Some(noted) = &self.progress {
            noted.set(progress);
        }
    }

    fn take(&self) -> Progress {
        match &self.progress {
            Some(noted) => noted.replace(Progress::NotAsked),
            None => Progress::NotAsked,
        }
    }
}

/// A connection, which ends with what is noted of it.
#[derive(Drop)]
pub(crate) struct Noted<F> {
    connection: F,
    notes: Notes,
}

impl<F> Noted<F> {
    pub(crate) fn new(connection: F, notes: Notes) -> Noted<F>
        ensures { result ≡ record { connection = connection; notes = notes } }
    {
        Noted { connection, notes }
    }
}

/// How a connection ended: with what `hyper` says, or by its time.
fn end_of(ended: Option<hyper::Result<()>>) -> End {
    match ended {
        Some(Ok(())) => End::Closed,
        Some(Err(error)) => End::Broken(error),
        None => End::TimeOver,
    }
}

impl<F: Future<Output = Option<hyper::Result<()>>>> Future for Noted<F> {
    type Output = Ended;

    ghost can_poll = { λ n. F.can_poll n.connection };

    ghost needs = { λ n. F.needs n.connection };

    fn poll(&mut self, cx: &mut Context<'_>) -> Poll<Ended> {
        let ended = ready!(self.connection.poll(cx));
        Poll::Ready(Ended {
            progress: self.notes.take(),
            end: end_of(ended),
        })
    }
}
