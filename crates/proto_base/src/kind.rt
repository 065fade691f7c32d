//! Every kind of fault that a source, a list of sources or a descriptor can have, by its number.

ghost use Rattle.std.specs.Prelude.{◌≡◌, Some};
ghost use Rattle.proto_base.specs.Kind.{number_of, name_of};

use std::fmt;

/// What is wrong with a source or with a list of sources. The order is that of the numbers.
#[derive(Clone, Copy, Debug, PartialEq, Eq, PartialOrd, Ord)]
pub enum Kind {
    // Lexical elements.
    NotUtf8 = 1,
    BadByte = 2,
    BadNumber = 3,
    NumberTooBig = 4,
    BadEscape = 5,
    UnclosedString = 6,
    UnclosedComment = 7,
    FileTooLong = 8,

    // Grammar.
    Unexpected = 10,
    CustomOption = 11,
    LeftOut = 12,
    TooDeep = 13,
    UnexpectedEnd = 14,

    // Rules of one file.
    NotProto3Syntax = 20,
    PackageTwice = 21,
    ImportTwice = 22,
    UnknownOption = 23,
    OptionTwice = 24,
    BadOptionValue = 25,
    FieldNumberRange = 26,
    FieldNumberTwice = 27,
    ReservedNumberUsed = 28,
    ReservedNameUsed = 29,
    ReservedOverlap = 30,
    ReservedNameTwice = 31,
    ReservedBackwards = 32,
    JsonNameTwice = 33,
    PackedOnWrongKind = 34,
    JstypeOnWrongKind = 35,
    EnumEmpty = 36,
    EnumFirstNotZero = 37,
    EnumNumberRange = 38,
    EnumNumberTwice = 39,
    OneofEmpty = 40,
    NameTooLong = 41,

    // Imports.
    ImportMissing = 50,
    ImportCycle = 51,

    // Names and files of the whole list.
    NameTwice = 60,
    TooManyNames = 61,
    TooManyFiles = 62,
    FileNameTwice = 63,

    // Types.
    TypeNotFound = 70,
    TypeNotMessage = 71,
    PackedOnMessage = 72,

    // Lengths of what is written.
    DescriptorTooLong = 73,
    SetTooLong = 74,
}

impl Kind {
    /// The number of the kind, by which kinds at one place are ordered.
    pub fn number(self) -> u8
        ensures { result ≡ number_of self }
    {
        self as u8
    }

    /// The name of the kind, as the program prints it.
    pub fn name(self) -> &'static str
        ensures { result.now ≡ name_of self }
    {
        match self {
            Kind::NotUtf8 => "NotUtf8",
            Kind::BadByte => "BadByte",
            Kind::BadNumber => "BadNumber",
            Kind::NumberTooBig => "NumberTooBig",
            Kind::BadEscape => "BadEscape",
            Kind::UnclosedString => "UnclosedString",
            Kind::UnclosedComment => "UnclosedComment",
            Kind::FileTooLong => "FileTooLong",
            Kind::Unexpected => "Unexpected",
            Kind::CustomOption => "CustomOption",
            Kind::LeftOut => "LeftOut",
            Kind::TooDeep => "TooDeep",
            Kind::UnexpectedEnd => "UnexpectedEnd",
            Kind::NotProto3Syntax => "NotProto3Syntax",
            Kind::PackageTwice => "PackageTwice",
            Kind::ImportTwice => "ImportTwice",
            Kind::UnknownOption => "UnknownOption",
            Kind::OptionTwice => "OptionTwice",
            Kind::BadOptionValue => "BadOptionValue",
            Kind::FieldNumberRange => "FieldNumberRange",
            Kind::FieldNumberTwice => "FieldNumberTwice",
            Kind::ReservedNumberUsed => "ReservedNumberUsed",
            Kind::ReservedNameUsed => "ReservedNameUsed",
            Kind::ReservedOverlap => "ReservedOverlap",
            Kind::ReservedNameTwice => "ReservedNameTwice",
            Kind::ReservedBackwards => "ReservedBackwards",
            Kind::JsonNameTwice => "JsonNameTwice",
            Kind::PackedOnWrongKind => "PackedOnWrongKind",
            Kind::JstypeOnWrongKind => "JstypeOnWrongKind",
            Kind::EnumEmpty => "EnumEmpty",
            Kind::EnumFirstNotZero => "EnumFirstNotZero",
            Kind::EnumNumberRange => "EnumNumberRange",
            Kind::EnumNumberTwice => "EnumNumberTwice",
            Kind::OneofEmpty => "OneofEmpty",
            Kind::NameTooLong => "NameTooLong",
            Kind::ImportMissing => "ImportMissing",
            Kind::ImportCycle => "ImportCycle",
            Kind::NameTwice => "NameTwice",
            Kind::TooManyNames => "TooManyNames",
            Kind::TooManyFiles => "TooManyFiles",
            Kind::FileNameTwice => "FileNameTwice",
            Kind::TypeNotFound => "TypeNotFound",
            Kind::TypeNotMessage => "TypeNotMessage",
            Kind::PackedOnMessage => "PackedOnMessage",
            Kind::DescriptorTooLong => "DescriptorTooLong",
            Kind::SetTooLong => "SetTooLong",
        }
    }
}

impl fmt::Display for Kind {
    ghost output = { λ kind. Some (name_of kind) };

    fn fmt<W: fmt::Write>(&self, f: &mut fmt::Formatter<W>) -> fmt::Result {
        f.write_str(self.name())
    }
}
