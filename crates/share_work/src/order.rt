//! The law on the order of the calls at a word.

ghost use Rattle.share_work.specs.Order.{CallsReplay};

/// At each word the calls that a closed table hands out have an order in which each found the least number posted before it:
/// by descending numbers found, a call that lowered the word last among equals.
pub fn calls_replay()
    ensures { CallsReplay }
{}
