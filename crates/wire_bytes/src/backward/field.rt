//! Fields that are written backwards (encoding guide, "Message Structure").

ghost use Rattle.std.specs.Prelude.{◌≡◌, ◌+◌, ◌-◌, ◌*◌, ◌≤◌, ◌++◌, List, OnOk, flat_map, length, ℕ};
ghost use Rattle.wire_bytes.specs.Descriptor.{flag_field};
ghost use Rattle.wire_format.specs.Field.{bytes_field, number_field};
ghost use Rattle.wire_format.specs.Varint.{varint_bytes};

use crate::backward::Backward;
use proto_base::row::Row;
use proto_base::text::Text;
use proto_desc::identifier::Identifier;
use proto_desc::json_name::JsonName;
use std::alloc::AllocError;

/// What stands behind the length in a field of wire type 2: a text or a message.
pub(crate) trait Payload {
    ghost bytes: { Self → List ℕ };

    /// Writes the bytes before what is written.
    fn prepend_to(&self, out: &mut Backward) -> Result<(), AllocError>
        ensures { OnOk result (out.new ≡ bytes self.now ++ out.old) };
}

impl<'s> Payload for Text<'s> {
    ghost bytes = { λ text. text };

    fn prepend_to(&self, out: &mut Backward) -> Result<(), AllocError> {
        out.prepend_bytes(self.as_str().as_bytes())
    }
}

impl<'s> Payload for Identifier<'s> {
    ghost bytes = { λ identifier. identifier };

    fn prepend_to(&self, out: &mut Backward) -> Result<(), AllocError> {
        out.prepend_bytes(self.as_str().as_bytes())
    }
}

impl<'s> Payload for JsonName<'s> {
    ghost bytes = { λ json. json };

    fn prepend_to(&self, out: &mut Backward) -> Result<(), AllocError> {
        let text = self.text(out.allocator())?;
        text.prepend_to(out)
    }
}

impl Backward {
    /// Writes a field whose value is a number.
    pub(crate) fn prepend_number(&mut self, number: u32, value: u64) -> Result<(), AllocError>
        ensures { OnOk result (self.new ≡ number_field number value ++ self.old) }
    {
        self.prepend_varint(value)?;
        self.prepend_varint(u64::from(number) * 8)
    }

    /// Writes a field with the value 1, if the flag is set.
    pub(crate) fn prepend_flag(&mut self, number: u32, is_set: bool) -> Result<(), AllocError>
        ensures { OnOk result (self.new ≡ flag_field number is_set ++ self.old) }
    {
        if !is_set {
            return Ok(());
        }
        self.prepend_number(number, 1)
    }

    /// Writes the tag and the length of a field of wire type 2 whose payload is written: all but the last `end` bytes.
    pub(crate) fn prepend_head(&mut self, number: u32, end: usize) -> Result<(), AllocError>
        requires { end ≤ length self.old }
        ensures { OnOk result (self.new ≡ varint_bytes (number * 8 + 2)
            ++ varint_bytes (length self.old - end) ++ self.old) }
    {
        let len = self.len() - end;
        self.prepend_varint(len as u64)?;
        self.prepend_varint(u64::from(number) * 8 + 2)
    }

    /// Writes a field with this payload.
    pub(crate) fn prepend_field<P: Payload>(
        &mut self,
        number: u32,
        payload: &P,
    ) -> Result<(), AllocError>
        ensures { OnOk result (self.new ≡ bytes_field number (P.bytes payload.now) ++ self.old) }
    {
        let end = self.len();
        payload.prepend_to(self)?;
        self.prepend_head(number, end)
    }

    /// Writes a field for each of these payloads, in their order.
    pub(crate) fn prepend_fields<P: Payload>(
        &mut self,
        number: u32,
        payloads: &Row<P>,
    ) -> Result<(), AllocError>
        ensures { OnOk result (self.new ≡ flat_map (λ p. bytes_field number (P.bytes p))
            payloads.now ++ self.old) }
    {
        for payload in payloads.iter().rev() {
            self.prepend_field(number, payload)?;
        }
        Ok(())
    }
}
