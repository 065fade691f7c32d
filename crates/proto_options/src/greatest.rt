//! The greatest numbers, for which `max` stands in a range that is reserved.

/// The greatest number of a field (language guide, "Assigning Field Numbers").
pub const FIELD_MAX: u64 = 536_870_911;

/// The greatest number of an enum's value (language guide, "Enumerations").
pub const VALUE_MAX: u64 = 2_147_483_647;
