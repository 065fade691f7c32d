//! Numbers with a sign, as `int32` fields have them (encoding guide, "Signed Integers").

ghost use Rattle.std.specs.Prelude.{◌≡◌};
ghost use Rattle.wire_bytes.specs.Descriptor.{low_bits};

use proto_desc::whole_number::WholeNumber;

/// The low 64 bits of the number's two's complement.
pub(super) fn low_bits(number: WholeNumber) -> u64
    ensures { result ≡ low_bits number }
{
    if number.is_negative {
        number.magnitude.wrapping_neg()
    } else {
        number.magnitude
    }
}
