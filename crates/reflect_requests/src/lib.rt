//! A server reflection stream over gRPC-Web: its frames and its requests.
//!
//! The standards are gRPC's PROTOCOL-WEB.md and `reflection.proto` of `grpc.reflection.v1`.
#![tactic(auto)]

mod frames;
mod request;

pub use frames::{Frames, Message, Status, Stream, frames_are_unique, read_frames, read_stream};
pub use request::{Ask, Request, read_request, requests_are_unique};
