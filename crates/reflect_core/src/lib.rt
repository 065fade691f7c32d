//! Answering a reflection stream over gRPC-Web: from the bytes of a request body to those of the response.
//!
//! The standards are gRPC's PROTOCOL-WEB.md and `reflection.proto` of `grpc.reflection.v1`. How a body is read is said by the
//! crate `reflect_requests`, whose `read_request` and `read_frames` are calls of this crate too, and which files go with which
//! reply by `first_reach`.
#![tactic(auto)]

mod answer;
mod asked;
mod body;
mod file_reach;
mod laws;
mod reply;
mod response;

pub use body::answer_body;
pub use first_reach::Mode;
pub use laws::{replies_are_short, responses_are_unique};
pub use reflect_requests::{Ask, Frames, Request, read_frames, read_request};
pub use response::response_without_replies;
