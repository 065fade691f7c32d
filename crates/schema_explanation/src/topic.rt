//! What can be explained.

ghost use Rattle.std.specs.Prelude.{◌≡◌, ◌<◌, ◌==◌, Contains, IfOk, IfSome};
ghost use Rattle.std.specs.List.{after_last};
ghost use Rattle.schema_explanation.specs.Table.{text_of, topics};
ghost use Rattle.schema_explanation.specs.Topics.{cure_of, is_named_by, last_word, meaning_of, name_of, named_by};

use crate::table::{TOPICS, text_of};
use proto_base::Kind;
use std::alloc::{AllocError, Global};
use strsim::jaro_winkler;

/// How alike a name has to be to what was written, from 0 to 1, to be offered in its place; `clap` has the same for commands.
const LIKE: f64 = 0.7;

/// What can be explained: a kind of fault, or another line with which a run ends.
#[derive(Clone, Copy)]
pub enum Topic {
    Kind(Kind),
    /// Kinds that sets of descriptors alone have.
    MalformedSet,
    MalformedFile,
    FileWithoutName,
    MalformedContents,
    /// `device: folder`, and so on.
    Folder,
    Set,
    Listen,
    Input,
    Output,
    Accept,
    /// `out of memory`.
    Memory,
}

impl Topic {
    /// What is printed: the name of the kind, or the line.
    pub fn name(self) -> &'static str
        ensures { result.now ≡ name_of self }
    {
        match self {
            Topic::Kind(kind) => kind.name(),
            Topic::MalformedSet => "MalformedSet",
            Topic::MalformedFile => "MalformedFile",
            Topic::FileWithoutName => "FileWithoutName",
            Topic::MalformedContents => "MalformedContents",
            Topic::Folder => "device: folder",
            Topic::Set => "device: set",
            Topic::Listen => "device: listen",
            Topic::Input => "device: input",
            Topic::Output => "device: output",
            Topic::Accept => "device: accept",
            Topic::Memory => "out of memory",
        }
    }

    /// All that is said of it: its first line says what it means, its last how it is cured.
    pub fn text(self) -> &'static str
        ensures { result.now ≡ text_of self }
    {
        text_of(self)
    }

    /// What it means, in a sentence or two.
    pub fn meaning(self) -> &'static str
        ensures { result.now ≡ meaning_of self }
    {
        let text = self.text();
        match text.split_once('\n') {
            Some((first, _)) => first,
            None => text,
        }
    }

    /// How it is cured: a line that begins with `Cure: `.
    pub fn cure(self) -> &'static str
        ensures { result.now ≡ cure_of self }
    {
        behind_last('\n', self.text())
    }

    /// Whether a text is its name, or a line that ends with it, in any case of letters.
    fn is_named(self, text: &str) -> bool
        ensures { result ≡ is_named_by text.now self }
    {
        let name = last_word(self.name());
        last_word(text).eq_ignore_ascii_case(name)
    }

    /// The topic whose name is most like a text, if one is like it at all.
    pub fn nearest(alloc: Global, text: &str) -> Result<Option<Topic>, AllocError>
        ensures { IfOk result (λ nearest. IfSome nearest (Contains topics)) }
    {
        let mut nearest = None;
        let mut most = LIKE;
        for topic in topics() {
            let likeness = jaro_winkler(alloc, last_word(text), last_word(topic.name()))?;
            if likeness > most {
                nearest = Some(*topic);
                most = likeness;
            }
        }
        Ok(nearest)
    }

    /// The topic that a text names: `TypeNotFound`, `device: folder`, or a whole line as `a.proto:1:32: TypeNotFound`, in any case of
    /// letters.
    pub fn named(text: &str) -> Option<Topic>
        ensures { result ≡ named_by text.now }
    {
        topics().iter().find(|topic| topic.is_named(text)).copied()
    }
}

/// What stands behind the last such ASCII character of a text, or all of it.
fn behind_last(sign: char, text: &str) -> &str
    requires { sign < 128 }
    ensures { result.now ≡ after_last (λ b. b == sign) text.now }
{
    match text.rsplit_once(sign) {
        Some((_, behind)) => behind,
        None => text,
    }
}

/// What stands behind the last blank of a text.
fn last_word(text: &str) -> &str
    ensures { result.now ≡ last_word text.now }
{
    behind_last(' ', text)
}

/// All topics, in the order of the passes that tell them; the lines without a kind come last.
#[tactic(auto, unfolding(crate::specs::Table::topics))]
pub fn topics() -> &'static [Topic]
    ensures { result.now ≡ topics }
{
    &TOPICS
}
