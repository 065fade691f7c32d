//! What clients may take of a service.

ghost use Rattle.std.specs.Prelude.{◌≡◌, ◌<◌, ◌≤◌, ◌↔◌, IsSome, IfSome, None};

use std::time::Duration;

/// How many clients are served at once, 1 to 1,024, and how long each may take.
///
/// A client takes its time from when its connection was accepted until its answer is taken: it sends a request, is answered, and
/// reads. Without a limit of time it may take as long as it likes.
#[derive(Clone, Copy)]
pub struct ServeOptions {
    clients: u32,
    client_time: Option<Duration>,
    ghost some_clients: { 0 < clients },
    ghost few_clients: { clients ≤ 1024 },
}

impl ServeOptions {
    /// 1 to 1,024 clients at once, else `None`.
    pub fn new(clients: u32, client_time: Option<Duration>) -> Option<ServeOptions>
        ensures within { IsSome result ↔ ((1 ≤ clients) × (clients ≤ 1_024)) }
        ensures options { IfSome result (λ o. (o.clients ≡ clients) × (o.client_time ≡ client_time)) }
    {
        if (1..=1_024).contains(&clients) {
            Some(ServeOptions {
                clients,
                client_time,
            })
        } else {
            None
        }
    }

    /// How many clients are served at once.
    pub fn clients(&self) -> u32
        ensures { result ≡ self.now.clients }
    {
        self.clients
    }

    /// How long a client may take.
    pub fn client_time(&self) -> Option<Duration>
        ensures { result ≡ self.now.client_time }
    {
        self.client_time
    }
}

/// One client after the other, each for as long as it likes.
impl Default for ServeOptions {
    ghost is_default = { λ o. (o.clients ≡ 1) × (o.client_time ≡ None) };

    fn default() -> ServeOptions {
        ServeOptions {
            clients: 1,
            client_time: None,
        }
    }
}
