//! What `reserved` statements list, in messages and in enums.

ghost use Rattle.std.specs.Prelude.{◌≡◌, ◌++◌, IfOk, OnOk, flat_map, map};
ghost use Rattle.proto_options.specs.Statements.{message_reserved, enum_reserved, ranges_in, names_in};

use proto_tree::{
    EnumItem, MessageItem, NumberLiteral, Range, ReservedItems, SignedNumber, StringValue,
};
use std::alloc::{AllocError, Global};

/// A statement that may reserve numbers and names.
pub trait Reserves<'s> {
    ghost use Rattle.std.specs.Prelude.{◌≡◌, List};
    ghost use Rattle.std.specs.Option.{option_copied, option_to_list};
    ghost use Rattle.proto_tree.specs.declared.reserved.ReservedItems.{ReservedItems};

    /// How its numbers are spelled.
    type Number: Copy;

    /// What it reserves: numbers or names, or nothing.
    ghost reserved_by: { Self → List (ReservedItems Self.Number) };

    /// What it reserves, where it does.
    fn reserved(&self) -> Option<&ReservedItems<'s, Self::Number>>
        ensures { reserved_by self.now ≡ option_to_list (option_copied result) };
}

impl<'s> Reserves<'s> for MessageItem<'s> {
    type Number = NumberLiteral;

    ghost reserved_by = { message_reserved };

    fn reserved(&self) -> Option<&ReservedItems<'s, NumberLiteral>> {
        match self {
            MessageItem::Reserved(reserved) => Some(&reserved.get().items),
            _ => None,
        }
    }
}

impl<'s> Reserves<'s> for EnumItem<'s> {
    type Number = SignedNumber;

    ghost reserved_by = { enum_reserved };

    fn reserved(&self) -> Option<&ReservedItems<'s, SignedNumber>> {
        match self {
            EnumItem::Reserved(reserved) => Some(&reserved.get().items),
            _ => None,
        }
    }
}

fn put_ranges<N: Copy>(
    ranges: &mut Vec<Range<N>>,
    items: &ReservedItems<N>,
) -> Result<(), AllocError>
    ensures { OnOk result (ranges.new.items ≡ ranges.old.items ++ ranges_in items.now) }
{
    if let ReservedItems::Ranges(listed) = items {
        for range in listed.iter() {
            ranges.push(*range)?;
        }
    }
    Ok(())
}

/// The ranges that statements reserve (language guide, "Reserved Fields", "Reserved Values"), as they stand there.
pub fn ranges_listed<'s, I: Reserves<'s>>(
    alloc: Global,
    items: &[I],
) -> Result<Vec<Range<I::Number>>, AllocError>
    ensures { IfOk result (λ ranges. ranges.items
        ≡ flat_map ranges_in (flat_map I.reserved_by items.now)) }
{
    let mut ranges = Vec::new(alloc);
    for item in items {
        if let Some(reserved) = item.reserved() {
            put_ranges(&mut ranges, reserved)?;
        }
    }
    Ok(ranges)
}

fn put_names<'i, 's, N>(
    names: &mut Vec<&'i StringValue<'s>>,
    items: &'i ReservedItems<'s, N>,
) -> Result<(), AllocError>
    ensures { OnOk result (map (λ name. name.now) names.new.items
        ≡ map (λ name. name.now) names.old.items ++ names_in items.now) }
{
    if let ReservedItems::Names(listed) = items {
        for name in listed.iter() {
            names.push(name)?;
        }
    }
    Ok(())
}

/// The names that statements reserve (language guide, "Reserved Fields", "Reserved Values"), as they are spelled.
pub fn names_listed<'i, 's, I: Reserves<'s>>(
    alloc: Global,
    items: &'i [I],
) -> Result<Vec<&'i StringValue<'s>>, AllocError>
where
    I::Number: 'i,
    ensures { IfOk result (λ names. map (λ name. name.now) names.items
        ≡ flat_map names_in (flat_map I.reserved_by items.now)) }
{
    let mut names = Vec::new(alloc);
    for item in items {
        if let Some(reserved) = item.reserved() {
            put_names(&mut names, reserved)?;
        }
    }
    Ok(names)
}
