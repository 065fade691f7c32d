//! What a journal says of a request and its response.

ghost use Rattle.std.specs.Prelude.{◌<◌, IfSome, length};

use http::{Request, Response};
use std::alloc::{AllocError, Global};
use std::fmt;
use std::time::Duration;

/// The flag of the frame that carries the trailers, the last one of a response (PROTOCOL-WEB.md).
const TRAILERS: u8 = 0x80;

/// A text in which each character that is no visible one of ASCII is written by its number, as `\u{e9}`: so a line with
/// it stays one.
#[derive(Clone, Copy)]
struct Visible<'a>(&'a str);

impl fmt::Display for Visible<'_> {
    fn fmt<W: fmt::Write>(&self, f: &mut fmt::Formatter<W>) -> fmt::Result {
        for c in self.0.chars() {
            if c.is_ascii_graphic() {
                write!(f, "{c}")?;
            } else {
                write!(f, "\\u{{{:x}}}", u32::from(c))?;
            }
        }
        Ok(())
    }
}

/// How many there are of a thing, as `1 byte` and `2 bytes`.
#[derive(Clone, Copy)]
struct Count(usize, &'static str);

impl fmt::Display for Count {
    fn fmt<W: fmt::Write>(&self, f: &mut fmt::Formatter<W>) -> fmt::Result {
        let end = if self.0 == 1 { "" } else { "s" };
        write!(f, "{} {}{end}", self.0, self.1)
    }
}

/// A time in milliseconds, with one place behind the point.
#[derive(Clone, Copy)]
struct Milliseconds(Duration);

impl fmt::Display for Milliseconds {
    fn fmt<W: fmt::Write>(&self, f: &mut fmt::Formatter<W>) -> fmt::Result {
        let tenths = self.0.as_micros() / 100;
        write!(f, "{}.{} ms", tenths / 10, tenths % 10)
    }
}

/// A frame of a response.
#[derive(Clone, Copy)]
struct Frame<'b> {
    flag: u8,
    message: &'b [u8],
    /// What follows it.
    after: &'b [u8],
}

/// The frame at the front, if there is a whole one.
fn first_frame(rest: &[u8]) -> Option<Frame<'_>>
    ensures { IfSome result (λ frame. length frame.after.now < length rest.now) }
{
    let (flag, more) = rest.split_first()?;
    let (size, more) = more.split_first_chunk::<4>()?;
    let (message, after) = more.split_at_checked(u32::from_be_bytes(*size) as usize)?;
    Some(Frame {
        flag: *flag,
        message,
        after,
    })
}

/// What the frames of a response tell.
#[derive(Clone, Copy)]
struct Told<'b> {
    /// How many requests were read: each has one reply.
    requests: usize,
    trailers: &'b [u8],
}

/// What the frames of a response tell. Nothing where its body is none in frames.
fn told_by(body: &[u8]) -> Option<Told<'_>> {
    let mut rest = body;
    let mut requests: usize = 0;
    loop {
        let frame = first_frame(rest)?;
        if frame.flag == TRAILERS {
            let trailers = frame.message;
            return Some(Told { requests, trailers });
        }
        requests = requests.saturating_add(1);
        rest = frame.after;
    }
}

/// The number of the gRPC status, as trailers have it.
fn grpc_status(trailers: &[u8]) -> Option<&str> {
    let text = str::from_utf8(trailers).ok()?;
    text.strip_prefix("grpc-status:")?.strip_suffix("\r\n")
}

/// A request and its response, by the numbers that an operator asks for.
#[derive(Clone, Copy)]
struct Line<'a> {
    request: &'a Request<Vec<u8>>,
    response: &'a Response<Vec<u8>>,
    /// How long the answer took, where the clock said it.
    time: Option<Duration>,
}

impl Line<'_> {
    /// The method, the path and the status, and that of gRPC where there is one.
    fn write_head<W: fmt::Write>(
        &self,
        told: Option<Told<'_>>,
        f: &mut fmt::Formatter<W>,
    ) -> fmt::Result {
        let path = Visible(self.request.uri().path());
        let status = self.response.status().as_u16();
        write!(f, "{} {path} {status}", self.request.method())?;
        match told {
            Some(told) => write!(
                f,
                " grpc-status {}",
                grpc_status(told.trailers).unwrap_or("?")
            ),
            None => Ok(()),
        }
    }
}

impl fmt::Display for Line<'_> {
    fn fmt<W: fmt::Write>(&self, f: &mut fmt::Formatter<W>) -> fmt::Result {
        let told = told_by(self.response.body());
        self.write_head(told, f)?;
        write!(f, ", {}", Count(self.request.body().len(), "byte"))?;
        if let Some(told) = told {
            write!(f, ", {}", Count(told.requests, "request"))?;
        }
        write!(f, ", {}", Count(self.response.body().len(), "byte"))?;
        match self.time {
            Some(time) => write!(f, ", {}", Milliseconds(time)),
            None => Ok(()),
        }
    }
}

/// The line on a request and its response.
pub(crate) fn line_of(
    alloc: Global,
    request: &Request<Vec<u8>>,
    response: &Response<Vec<u8>>,
    time: Option<Duration>,
) -> Result<String, AllocError> {
    let line = Line {
        request,
        response,
        time,
    };
    format!(in alloc; "{line}")
}
