//! Whole numbers as sources spell them: a sign and 64 bits.

ghost use Rattle.std.specs.Prelude.{◌≡◌};
ghost use Rattle.proto_desc.specs.WholeNumber.{signed};

/// A number from -(2^64 - 1) to 2^64 - 1. Zero is not negative.
#[derive(Clone, Copy, PartialEq, Eq)]
pub struct WholeNumber {
    pub is_negative: bool,
    pub magnitude: u64,
}

impl WholeNumber {
    /// The number of this magnitude, negative behind a minus: `-0` is 0.
    pub fn signed(has_minus: bool, magnitude: u64) -> WholeNumber
        ensures { result ≡ signed has_minus magnitude }
    {
        WholeNumber {
            is_negative: has_minus && magnitude != 0,
            magnitude,
        }
    }
}
