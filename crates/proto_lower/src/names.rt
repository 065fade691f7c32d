//! Names that are made of the names of fields (language guide, "Maps"; `descriptor.proto`, `proto3_optional`).

ghost use Rattle.std.specs.Prelude.{◌≡◌, ◌==◌, ℕ, IfOk, OnOk, string_bytes, map, false, List, [], ◌∷◌, ◌++◌};
ghost use Rattle.std.specs.Set.{is_member};
ghost use Rattle.std.specs.Str.{bytes_eq};
ghost use Rattle.std.specs.BTreeSet.{contains_text};
ghost use Rattle.proto_lower.specs.Fields.{inner};
ghost use Rattle.proto_lower.specs.Names.{entry_name_of, oneof_name_of, first_free, with_underscore};
ghost use Rattle.proto_lower.specs.Taken.{begins_as_made, HoldsTaken};

use proto_desc::json_name::push_raised;
use std::alloc::{AllocError, Global};
use std::collections::BTreeSet;

/// What the name of a map field's entry ends with.
const ENTRY: &str = "Entry";

/// Adds the name of a map field's entry.
fn push_entry_name(made: &mut String, field: &str) -> Result<(), AllocError>
    ensures { OnOk result (string_bytes made.new ≡ string_bytes made.old ++ entry_name_of field.now) }
{
    push_raised(made, field, '_')?;
    made.push_str(ENTRY)
}

/// The name of a map field's entry: underscores are dropped, a lower-case ASCII letter is raised at the start and directly
/// behind an underscore, and `Entry` is added.
pub fn entry_name(alloc: Global, field: &str) -> Result<String, AllocError>
    ensures { IfOk result (λ name. string_bytes name ≡ entry_name_of field.now) }
{
    let mut name = String::with_capacity(alloc, field.len().saturating_add(ENTRY.len()))?;
    push_entry_name(&mut name, field)?;
    Ok(name)
}

/// The name of a map field's entry with that of its message before it.
pub(crate) fn entry_name_in(alloc: Global, message: &str, field: &str) -> Result<String, AllocError>
    ensures { IfOk result (λ name. string_bytes name ≡ inner message.now (entry_name_of field.now)) }
{
    let dotted = message.len().saturating_add(1);
    let room = dotted
        .saturating_add(field.len())
        .saturating_add(ENTRY.len());
    let mut name = String::with_capacity(alloc, room)?;
    name.push_str(message)?;
    name.push_str(".")?;
    push_entry_name(&mut name, field)?;
    Ok(name)
}

/// A name with a letter in front.
fn with_letter(alloc: Global, letter: &str, name: &str) -> Result<String, AllocError>
    ensures { IfOk result (λ made. string_bytes made ≡ letter.now ++ name.now) }
{
    let mut made = String::with_capacity(alloc, name.len().saturating_add(letter.len()))?;
    made.push_str(letter)?;
    made.push_str(name)?;
    Ok(made)
}

pub(crate) fn with_underscore(alloc: Global, field: &str) -> Result<String, AllocError>
    ensures { IfOk result (λ name. string_bytes name ≡ with_underscore field.now) }
{
    if field.as_bytes().first() == Some(&b'_') {
        return String::from_str(alloc, field);
    }
    with_letter(alloc, "_", field)
}

/// The first name that is not taken, of `name` and it with `X` in front once, twice and so on up to `most` times.
pub(crate) fn first_free(
    alloc: Global,
    mut name: String,
    taken: &BTreeSet<String>,
    most: usize,
) -> Result<String, AllocError>
    ensures { IfOk result (λ free. string_bytes free
        ≡ first_free (contains_text taken.now) most (string_bytes name)) }
{
    for _ in 0..most {
        if !taken.contains(name.as_str()) {
            return Ok(name);
        }
        name = with_letter(alloc, "X", name.as_str())?;
    }
    Ok(name)
}

/// Whether a name begins like those that are made. No other needs to be looked for among them.
fn begins_as_made(name: &str) -> bool
    ensures { result ≡ begins_as_made name.now }
{
    matches!(name.as_bytes(), [b'_' | b'X', ..])
}

/// Takes a name.
pub(crate) fn take_name(
    alloc: Global,
    taken: &mut BTreeSet<String>,
    name: &str,
) -> Result<(), AllocError>
    ensures { OnOk result ((names : List (List ℕ)) → HoldsTaken names taken.old
        → HoldsTaken (names ++ name.now ∷ []) taken.new) }
{
    if begins_as_made(name) {
        taken.insert(String::from_str(alloc, name)?)?;
    }
    Ok(())
}

fn set_of(alloc: Global, names: &[&str]) -> Result<BTreeSet<String>, AllocError>
    ensures { IfOk result (HoldsTaken (map (λ name. name.now) names.now)) }
{
    let mut set = BTreeSet::new(alloc);
    for name in names {
        take_name(alloc, &mut set, name)?;
    }
    Ok(set)
}

/// The name of the oneof that an `optional` field makes: the field's name, with `_` in front unless it begins with `_`, and
/// then with `X` in front as long as the name is among those that are taken.
pub fn oneof_name(alloc: Global, field: &str, taken: &[&str]) -> Result<String, AllocError>
    ensures value { IfOk result (λ name. string_bytes name
        ≡ oneof_name_of (map (λ t. t.now) taken.now) field.now) }
    ensures free { IfOk result (λ name. is_member bytes_eq (map (λ t. t.now) taken.now)
        (string_bytes name) ≡ false) }
{
    let set = set_of(alloc, taken)?;
    let start = with_underscore(alloc, field)?;
    first_free(alloc, start, &set, taken.len())
}
