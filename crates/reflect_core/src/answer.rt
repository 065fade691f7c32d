//! What answers a request.

ghost use Rattle.std.specs.Prelude.{◌≡◌, ◌<◌, ◌↔◌, IsTrue, None};
ghost use Rattle.proto_desc.specs.declared.name_kind.NameKind.TheVariants.{Message};
ghost use Rattle.std.specs.Option.{ForSome};
ghost use Rattle.proto_links.specs.Linked.{count_of};
ghost use Rattle.reflect_core.specs.Answer.{IsAnswer, root_of};
ghost use Rattle.reflect_core.specs.ProgramAnswers.{answer_of};
ghost use Rattle.reflect_requests.specs.Request.{extension_numbers, file_by_extension, file_by_name, file_by_symbol};
ghost use Rattle.reflect_requests.specs.ProgramFrames.{ask_of};

use proto_compilation::Compiled;
use proto_desc::name_kind::NameKind;
use proto_links::FileId;
use reflect_requests::Ask;

/// What answers a request.
#[derive(Clone, Copy)]
pub(crate) enum Answer<'b> {
    /// A file, and what it reaches.
    File(FileId),
    /// The numbers of the extensions of the message of this full name.
    Extensions(&'b str),
    /// The full names of all services.
    Services,
    /// Nothing has the name.
    NotFound,
    /// Nothing is asked.
    EmptyRequest,
}

/// The file of this name.
fn named_file<'b>(compiled: &Compiled, name: &'b str) -> Answer<'b>
    ensures answer { IsAnswer compiled.now (file_by_name name.now) (answer_of result) }
    ensures within { ForSome (root_of (answer_of result)) (λ a. a < count_of compiled.now.links) }
{
    match compiled.file_id(name) {
        Some(file) => Answer::File(file),
        None => Answer::NotFound,
    }
}

/// The file that declares an element of this full name.
fn declaring_file<'b>(compiled: &Compiled, symbol: &'b str) -> Answer<'b>
    ensures answer { IsAnswer compiled.now (file_by_symbol symbol.now) (answer_of result) }
    ensures within { ForSome (root_of (answer_of result)) (λ a. a < count_of compiled.now.links) }
{
    compiled.is_sound();
    match compiled.names().find(symbol) {
        Some(defined) => Answer::File(defined.file),
        None => Answer::NotFound,
    }
}

fn is_message(kind: NameKind) -> bool
    ensures { IsTrue result ↔ (kind ≡ Message) }
{
    matches!(kind, NameKind::Message)
}

/// The file that declares the extension of this number, of the message of this full name.
fn extending_file<'b>(compiled: &Compiled, message: &'b str, number: u32) -> Answer<'b>
    ensures answer { IsAnswer compiled.now (file_by_extension message.now number) (answer_of result) }
    ensures within { ForSome (root_of (answer_of result)) (λ a. a < count_of compiled.now.links) }
{
    compiled.is_sound();
    for extension in compiled.extensions() {
        if extension.number == number && extension.message.as_str() == message {
            return Answer::File(extension.file);
        }
    }
    Answer::NotFound
}

/// The extensions of the message of this full name.
fn extensions_of<'b>(compiled: &Compiled, name: &'b str) -> Answer<'b>
    ensures answer { IsAnswer compiled.now (extension_numbers name.now) (answer_of result) }
    ensures none { root_of (answer_of result) ≡ None }
{
    compiled.names().names_are_declared_once();
    match compiled.names().find(name) {
        Some(defined) if is_message(defined.kind) => Answer::Extensions(name),
        _ => Answer::NotFound,
    }
}

/// What answers an ask (`reflection.proto`, `ServerReflectionRequest`).
pub(crate) fn answer_to<'b>(compiled: &Compiled, ask: Ask<'b>) -> Answer<'b>
    ensures answer { IsAnswer compiled.now (ask_of ask.entry) (answer_of result) }
    ensures within { ForSome (root_of (answer_of result)) (λ a. a < count_of compiled.now.links) }
{
    match ask {
        Ask::FileByName(name) => named_file(compiled, name),
        Ask::FileBySymbol(symbol) => declaring_file(compiled, symbol),
        Ask::FileByExtension {
            containing_type,
            number,
        } => extending_file(compiled, containing_type, number),
        Ask::ExtensionNumbers(name) => extensions_of(compiled, name),
        Ask::ListServices => Answer::Services,
        Ask::Nothing => Answer::EmptyRequest,
    }
}
