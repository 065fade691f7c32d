//! What is the matter with an entry of a folder.

ghost use Rattle.std.specs.Prelude.{◌≡◌, Some};
ghost use Rattle.source_folder.specs.Reasons.{IsReasonOf, words_of};

use std::{fmt, io};

/// What is the matter with an entry of a folder, or with the root.
#[derive(Clone, Copy, Debug, PartialEq, Eq)]
pub enum Reason {
    NotThere,
    NoFolder,
    /// This user may not read it.
    Denied,
    /// It is a folder, in which a name is no UTF-8.
    NoText,
    /// It is a folder that lies more than 64 folders below the root.
    TooDeep,
    /// It is an entry more than there may be.
    TooMany,
    /// It leads to a folder in which it lies.
    Circle,
    /// It is a folder that showed two entries of one name.
    Changed,
    /// It is no folder and no file: a device, a pipe or a socket.
    Device,
    /// It is a link that leads nowhere.
    Nowhere,
    /// The system doesn't tell whether it is a folder.
    Untold,
    /// The system doesn't list it.
    Unlisted,
    /// The system doesn't read it.
    Unread,
    /// It leads out of the root.
    Outside,
    /// It is a source, by this path from the root, that was named by another one.
    OtherName,
}

impl Reason {
    /// What an error of the system says, or, where that says nothing of the entry, another reason.
    pub(crate) fn of(error: &io::Error, otherwise: Reason) -> Reason
        ensures { IsReasonOf error.now otherwise result }
    {
        match error.kind() {
            io::ErrorKind::NotFound => Reason::NotThere,
            io::ErrorKind::NotADirectory => Reason::NoFolder,
            io::ErrorKind::PermissionDenied => Reason::Denied,
            io::ErrorKind::FilesystemLoop => Reason::Nowhere,
            // A name that is no text has no number. One that is too long for the system has.
            io::ErrorKind::InvalidFilename if error.raw_os_error().is_none() => Reason::NoText,
            _ => otherwise,
        }
    }

    /// The reason in words that can follow the entry's path.
    pub fn words(self) -> &'static str
        ensures { result.now ≡ words_of self }
    {
        match self {
            Reason::NotThere => "it is not there",
            Reason::NoFolder => "it is no folder",
            Reason::Denied => "no leave to read it",
            Reason::NoText => "a name in it is no text",
            Reason::TooDeep => "more than 64 folders deep",
            Reason::TooMany => "more than 1,048,576 entries",
            Reason::Circle => "a link that leads to a folder in which it lies",
            Reason::Changed => "the folder changed while it was listed",
            Reason::Device => "it is a device or a pipe",
            Reason::Nowhere => "it is a link that leads nowhere",
            Reason::Untold => "the system does not tell what it is",
            Reason::Unlisted => "it could not be listed",
            Reason::Unread => "it could not be read",
            Reason::Outside => "it does not lie below the root",
            Reason::OtherName => "so this source is named, by its path from the root",
        }
    }
}

impl fmt::Display for Reason {
    ghost output = { λ reason. Some (words_of reason) };

    fn fmt<W: fmt::Write>(&self, f: &mut fmt::Formatter<W>) -> fmt::Result {
        f.write_str(self.words())
    }
}
