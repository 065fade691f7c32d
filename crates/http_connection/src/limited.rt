//! A limit of time.

ghost use Rattle.std.specs.Prelude.{◌≡◌, ◌⊎◌, IsSomeAnd};
ghost use Rattle.tokio.specs.Timers.{sleep_source};

use futures::task::{Context, Poll};
use futures::{Future, ready};
use tokio::time::Sleep;

/// Gives what a future gives, or nothing when the time for it is over. Without a time it ends with the future.
#[derive(Drop)]
pub(crate) struct Limited<F> {
    future: F,
    time: Option<Sleep>,
}

impl<F> Limited<F> {
    pub(crate) fn new(future: F, time: Option<Sleep>) -> Limited<F>
        ensures { result ≡ record { future = future; time = time } }
    {
        Limited { future, time }
    }
}

impl<F> Future for Limited<F>
where
    F: Future,
{
    type Output = Option<F::Output>;

    ghost can_poll = { λ l. F.can_poll l.future };

    ghost needs = { λ l s. F.needs l.future s ⊎ IsSomeAnd l.time (λ time. s ≡ sleep_source time) };

    fn poll(&mut self, cx: &mut Context<'_>) -> Poll<Option<F::Output>> {
        if let Poll::Ready(output) = self.future.poll(cx) {
            return Poll::Ready(Some(output));
        }
        match &mut self.time {
            Some(time) => {
                let _ = ready!(time.poll_elapsed(cx));
                Poll::Ready(None)
            }
            None => Poll::Pending,
        }
    }
}
