//! What answers the requests of connections.

ghost use Rattle.std.specs.Prelude.{⊤, IfOk, Ok};
ghost use Rattle.std.specs.Fn.{FnReturnsAt};
ghost use Rattle.http_connection.specs.Messages.{Line, WholeRequest, WholeResponse};

use http::{Request, Response};
use std::alloc::AllocError;

/// What a request is answered.
#[derive(Drop)]
pub struct Answered {
    pub response: Response<Vec<u8>>,
    /// What a journal says of it, without an end of line; nothing where none is kept, or where memory for it ran out.
    pub line: Option<String>,
}

/// Answers requests.
pub trait Responder: Drop {
    // Holds of a responder that may be given any request.
    ghost can_respond: { Self → Type 0 } = { λ _. ⊤ };

    // Holds of each response that a request may get.
    ghost responds: { Self → WholeRequest → WholeResponse → Type 0 } = { λ _ _ _. ⊤ };

    /// What a request is answered whose body was read to its end, or to as many bytes as `serve_connections` was given. It fails
    /// only for want of memory.
    fn respond(&self, request: &Request<Vec<u8>>) -> Result<Answered, AllocError>
        requires { can_respond self.now }
        ensures { IfOk result (λ answered. responds self.now request.now answered.response) };
}

impl<F> Responder for F
where
    F: Fn(&Request<Vec<u8>>) -> Result<Answered, AllocError> + Drop,
{
    ghost can_respond = { λ f. F.IsAlwaysCallable f };

    ghost responds = { λ f request response. (line : Line) × FnReturnsAt F.Fn f request (Ok (record { response = response; line = line })) };

    fn respond(&self, request: &Request<Vec<u8>>) -> Result<Answered, AllocError> {
        self(request)
    }
}
