//! Requests of a reflection stream: what a message asks for.

ghost use Rattle.std.specs.Prelude.{◌≡◌, ℕ, Err, IfErr, IfOk, IsUtf8, List, OnErr, OnOk, option_map};
ghost use Rattle.reflect_requests.specs.Request.{IsContainingTypeUtf8, IsExtensionRequest, IsWellFormed, ReadsRequest, containing_type_of, extension_number_of};
ghost use Rattle.reflect_requests.specs.ProgramFrames.{ask_of};
ghost use Rattle.reflect_requests.specs.Request as definition;
ghost use Rattle.reflect_requests.specs.RequestSteps.{AsksExtension, Says};
ghost use Rattle.wire_format.specs.ProgramFields.{field_of};
ghost use Rattle.wire_format.specs.declared.reading.WireError.TheVariants as errors;

use std::alloc::Global;
use wire_format::{Field, FieldValue, WireError, read_fields};

/// A request: the host that it names, empty where it names none, and what it asks for.
#[derive(Clone, Copy)]
pub struct Request<'b> {
    pub host: &'b str,
    pub ask: Ask<'b>,
}

/// The last member of the oneof `message_request`.
#[derive(Clone, Copy)]
pub enum Ask<'b> {
    /// The file with this name.
    FileByName(&'b str),
    /// The file that declares this full name.
    FileBySymbol(&'b str),
    /// The file that declares the extension of this number, of the message with this full name.
    FileByExtension {
        containing_type: &'b str,
        number: u32,
    },
    /// The numbers of the extensions of the message with this full name.
    ExtensionNumbers(&'b str),
    /// The full names of all services.
    ListServices,
    /// No member is set.
    Nothing,
}

/// What one field of a request says.
#[derive(Clone, Copy)]
enum Said<'b> {
    Host(&'b str),
    Member(Ask<'b>),
    Unknown,
}

/// The text of a string.
fn text(bytes: &[u8]) -> Result<&str, WireError>
    ensures utf8 { IfOk result (λ text. (text.now ≡ bytes.now) × IsUtf8 bytes.now) }
    ensures other { IfErr result (λ _. ¬ IsUtf8 bytes.now) }
{
    std::str::from_utf8(bytes).ok().ok_or(WireError::Malformed)
}

/// The `containing_type` that a field of an `ExtensionRequest` gives: its only string.
fn containing_type<'b>(field: &Field<'b>) -> Result<Option<&'b str>, WireError>
    ensures given { IfOk result (λ text. option_map (λ t. t.now) text
        ≡ containing_type_of (field_of field.now)) }
    ensures utf8 { OnOk result (IsContainingTypeUtf8 (field_of field.now)) }
    ensures other { OnErr result (¬ IsContainingTypeUtf8 (field_of field.now)) }
{
    match field.value {
        FieldValue::Delimited(bytes) if field.number == 1 => Ok(Some(text(bytes)?)),
        _ => Ok(None),
    }
}

/// The `extension_number` that a field of an `ExtensionRequest` gives: the lower 32 bits of its number.
fn extension_number(field: &Field) -> Option<u32>
    ensures { result ≡ extension_number_of (field_of field.now) }
{
    match field.value {
        FieldValue::Varint(value) if field.number == 2 => Some((value % 4_294_967_296) as u32),
        _ => None,
    }
}

/// Reads an `ExtensionRequest`. Of each of its fields the last counts.
fn read_extension<'b>(alloc: Global, message: &'b [u8]) -> Result<Ask<'b>, WireError>
    ensures asks { IfOk result (λ asked. AsksExtension message.now (ask_of asked)) }
    ensures malformed { result ≡ Err errors.Malformed → ¬ IsExtensionRequest message.now }
{
    let fields = read_fields(alloc, message)?;
    let mut name = "";
    let mut number = 0;
    for field in &fields {
        if let Some(text) = containing_type(field)? {
            name = text;
        }
        if let Some(value) = extension_number(field) {
            number = value;
        }
    }
    Ok(Ask::FileByExtension {
        containing_type: name,
        number,
    })
}

/// What a field says, by its number in `ServerReflectionRequest`.
fn said_by<'b>(alloc: Global, field: &Field<'b>) -> Result<Said<'b>, WireError>
    ensures says { IfOk result (Says (field_of field.now)) }
    ensures malformed { result ≡ Err errors.Malformed → ¬ IsWellFormed (field_of field.now) }
{
    let FieldValue::Delimited(bytes) = field.value else {
        return Ok(Said::Unknown);
    };
    match field.number {
        1 => Ok(Said::Host(text(bytes)?)),
        3 => Ok(Said::Member(Ask::FileByName(text(bytes)?))),
        4 => Ok(Said::Member(Ask::FileBySymbol(text(bytes)?))),
        5 => Ok(Said::Member(read_extension(alloc, bytes)?)),
        6 => Ok(Said::Member(Ask::ExtensionNumbers(text(bytes)?))),
        7 => {
            text(bytes)?;
            Ok(Said::Member(Ask::ListServices))
        }
        _ => Ok(Said::Unknown),
    }
}

/// The request that a message spells (`reflection.proto`, `ServerReflectionRequest`). Of the hosts
/// and of the members of the oneof the last counts. Fields of another number, or of another wire
/// type than their number's, are skipped.
///
/// `Malformed` says that the message is no row of fields, that one of its strings isn't UTF-8, or
/// that one of its requests for an extension is malformed. `NoMemory` comes only where the allocator
/// had none.
pub fn read_request<'b>(alloc: Global, message: &'b [u8]) -> Result<Request<'b>, WireError>
    // What is read is what the message says.
    ensures found { IfOk result (λ request. ReadsRequest message.now request.host.now
        (ask_of request.ask)) }

    // A message is refused only where it is no request.
    ensures malformed { result ≡ Err errors.Malformed → (host : List ℕ) (asked : definition.Ask)
        → ReadsRequest message.now host asked → ⊥ }
{
    let fields = read_fields(alloc, message)?;
    let mut host = "";
    let mut ask = Ask::Nothing;
    for field in &fields {
        match said_by(alloc, field)? {
            Said::Host(text) => host = text,
            Said::Member(member) => ask = member,
            Said::Unknown => {}
        }
    }
    Ok(Request { host, ask })
}

/// A message is at most one request.
pub fn requests_are_unique()
    ensures host { (message h k : List ℕ) (a b : definition.Ask) → ReadsRequest message h a
        → ReadsRequest message k b → h ≡ k }
    ensures ask { (message h k : List ℕ) (a b : definition.Ask) → ReadsRequest message h a
        → ReadsRequest message k b → a ≡ b }
{}
