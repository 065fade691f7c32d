//! What becomes of connections, for a journal.

use crate::fault::ConnectionFault;
use std::fmt;

/// How far the request of a connection has come.
#[derive(Debug, Drop)]
pub enum Progress {
    /// None has come.
    NotAsked,
    /// Its head has come, and it is not answered.
    Asked,
    /// It gets no answer.
    Failed(ConnectionFault),
    /// It is answered, with what the responder says of it.
    Answered(Option<String>),
}

/// How a connection ended.
#[derive(Debug, Drop)]
pub enum End {
    /// Its answer was taken, or its client closed it before a request.
    Closed,
    /// It broke off, or what came is no HTTP.
    Broken(hyper::Error),
    /// The time of its client was over.
    TimeOver,
    /// There was no memory for it.
    NoMemory,
}

impl fmt::Display for End {
    fn fmt<W: fmt::Write>(&self, f: &mut fmt::Formatter<W>) -> fmt::Result {
        match self {
            End::Closed => f.write_str("its client closed it"),
            End::Broken(error) => write!(f, "{error}"),
            End::TimeOver => f.write_str("the time of its client was over"),
            End::NoMemory => f.write_str("out of memory"),
        }
    }
}

/// A connection that has ended.
#[derive(Debug, Drop)]
pub struct Ended {
    pub progress: Progress,
    pub end: End,
}

/// Notes what becomes of connections.
pub trait Journal: Drop {
    /// Whether notes are kept. It is asked once, before the first connection.
    fn is_kept(&self) -> bool;

    /// A connection has ended. What cannot be noted is lost.
    fn note(&mut self, ended: &Ended);
}

/// Keeps no notes.
#[derive(Clone, Copy)]
pub struct NoJournal;

impl Journal for NoJournal {
    fn is_kept(&self) -> bool {
        false
    }

    fn note(&mut self, _ended: &Ended) {}
}
