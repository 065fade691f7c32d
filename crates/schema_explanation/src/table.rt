//! What is said of each topic. docs/explanations writes this file from docs/FAULTS.md.

ghost use Rattle.std.specs.Prelude.{◌≡◌};
ghost use Rattle.schema_explanation.specs.Table.{text_of, text_of_kind};

use crate::topic::Topic;
use proto_base::Kind;

/// All topics, in the order of the page.
pub(crate) static TOPICS: [Topic; 57] = [
    Topic::Kind(Kind::TooManyFiles),
    Topic::Kind(Kind::FileNameTwice),
    Topic::Kind(Kind::NotUtf8),
    Topic::Kind(Kind::BadByte),
    Topic::Kind(Kind::BadNumber),
    Topic::Kind(Kind::NumberTooBig),
    Topic::Kind(Kind::BadEscape),
    Topic::Kind(Kind::UnclosedString),
    Topic::Kind(Kind::UnclosedComment),
    Topic::Kind(Kind::FileTooLong),
    Topic::Kind(Kind::Unexpected),
    Topic::Kind(Kind::CustomOption),
    Topic::Kind(Kind::LeftOut),
    Topic::Kind(Kind::TooDeep),
    Topic::Kind(Kind::UnexpectedEnd),
    Topic::Kind(Kind::NotProto3Syntax),
    Topic::Kind(Kind::PackageTwice),
    Topic::Kind(Kind::ImportTwice),
    Topic::Kind(Kind::UnknownOption),
    Topic::Kind(Kind::OptionTwice),
    Topic::Kind(Kind::BadOptionValue),
    Topic::Kind(Kind::FieldNumberRange),
    Topic::Kind(Kind::FieldNumberTwice),
    Topic::Kind(Kind::ReservedNumberUsed),
    Topic::Kind(Kind::ReservedNameUsed),
    Topic::Kind(Kind::ReservedOverlap),
    Topic::Kind(Kind::ReservedNameTwice),
    Topic::Kind(Kind::ReservedBackwards),
    Topic::Kind(Kind::JsonNameTwice),
    Topic::Kind(Kind::PackedOnWrongKind),
    Topic::Kind(Kind::JstypeOnWrongKind),
    Topic::Kind(Kind::EnumEmpty),
    Topic::Kind(Kind::EnumFirstNotZero),
    Topic::Kind(Kind::EnumNumberRange),
    Topic::Kind(Kind::EnumNumberTwice),
    Topic::Kind(Kind::OneofEmpty),
    Topic::Kind(Kind::NameTooLong),
    Topic::Kind(Kind::ImportMissing),
    Topic::Kind(Kind::ImportCycle),
    Topic::Kind(Kind::NameTwice),
    Topic::Kind(Kind::TooManyNames),
    Topic::Kind(Kind::TypeNotFound),
    Topic::Kind(Kind::TypeNotMessage),
    Topic::Kind(Kind::PackedOnMessage),
    Topic::Kind(Kind::DescriptorTooLong),
    Topic::Kind(Kind::SetTooLong),
    Topic::MalformedSet,
    Topic::MalformedFile,
    Topic::FileWithoutName,
    Topic::MalformedContents,
    Topic::Folder,
    Topic::Set,
    Topic::Listen,
    Topic::Input,
    Topic::Output,
    Topic::Accept,
    Topic::Memory,
];

/// What is said of a kind.
fn text_of_kind(kind: Kind) -> &'static str
    ensures { result.now ≡ text_of_kind kind }
{
    match kind {
        Kind::TooManyFiles => "There are more than 16,384 files below the root, or in the set.

Where: no file, and line 1, column 1.

    for i in $(seq 16385); do : > $i.proto; done

    :1:1: TooManyFiles

Cure: Compile a folder further below.",
        Kind::FileNameTwice =>
            "Two sources have one name, or two files of a set. A folder has no two such files: it is met only where sources come from elsewhere, and where two sets were joined.

Where: the start of the file.

Cure: Give each source a name of its own. Make one set of all sources, in place of joining two.",
        Kind::NotUtf8 =>
            r#"The file holds bytes that are no UTF-8, at the first byte that belongs to no whole character. Comments and strings count.

Where: that byte.

    printf 'syntax = "proto3";\n// caf\351\n' > a.proto

    a.proto:2:7: NotUtf8

Cure: Save the file as UTF-8 (`iconv -f latin1 -t utf-8`)."#,
        Kind::BadByte =>
            r#"A byte outside comments and strings that begins no token: a control character, or one beyond ASCII.

Where: that byte.

    syntax = "proto3";
    message é {}

    a.proto:2:9: BadByte

Cure: Names are ASCII letters, digits and `_`. An invisible character, such as a no-break space, is often what stands there."#,
        Kind::BadNumber =>
            r#"No digit follows `0x`, or a letter, a digit, `_` or `.` follows a number directly. Floating-point numbers are no tokens here.

Where: the number's first digit.

    syntax = "proto3";
    message A { int32 x = 08; }

    a.proto:2:23: BadNumber

Cure: A number that begins with 0 is octal: write `8`. A default or an option with a floating-point value is not part of this language."#,
        Kind::NumberTooBig => r#"A number is over 18,446,744,073,709,551,615.

Where: the number's first digit.

    syntax = "proto3";
    message A { int32 x = 18446744073709551616; }

    a.proto:2:23: NumberTooBig

Cure: Field numbers go to 536,870,911, enum numbers to 2,147,483,647."#,
        Kind::BadEscape =>
            r#"A backslash in a string that begins no escape, or whose digits are missing or name no character.

Where: the backslash, or the opening quote where each escape is one and the value of the whole string is no UTF-8.

    syntax = "proto3";
    option java_package = "a\q";

    a.proto:2:25: BadEscape

Cure: Write `\\` for a backslash. The escapes are those of the specification; a pair of surrogates is not taken as one character."#,
        Kind::UnclosedString =>
            r#"A string ends at the end of its line or of the file, without its quote.

Where: its opening quote.

    syntax = "proto3";
    option java_package = "a;

    a.proto:2:23: UnclosedString

Cure: Close the quote on the same line. Adjacent strings join, so a long text can stand on several lines."#,
        Kind::UnclosedComment => r#"A comment that `/*` begins has no `*/`.

Where: its `/`.

    syntax = "proto3";
    /* message A {}

    a.proto:2:1: UnclosedComment

Cure: Close it. Comments do not nest: the first `*/` ends one."#,
        Kind::FileTooLong => r#"The file has more than 4,194,304 bytes.

Where: the start of the file.

    { echo 'syntax = "proto3";'; head -c 4194304 /dev/zero | tr '\0' ' '; } > a.proto

    a.proto:1:1: FileTooLong

Cure: Split the file."#,
        Kind::Unexpected => r#"This token cannot stand here.

Where: that token.

    syntax = "proto3";
    message A { int32 x }

    a.proto:2:21: Unexpected

Cure: Look at what stands before it: most often a `;`, a `=` or a type is missing. Where it is the first of the file, `syntax = "proto3";` is missing, or `edition` stands for it. A map has no label, and its key is an integer, a `bool` or a `string`. A member of a oneof has no label, and is no map. In a method the word is `returns`, not `return`."#,
        Kind::CustomOption =>
            r#"An option's name begins with `(`: an option that somebody declared with `extend`. Custom options are left out of this language.

Where: the `(`.

    syntax = "proto3";
    message A { option (mine) = 1; }

    a.proto:2:20: CustomOption

Cure: `--skip-custom-options` compiles the sources as if such options were not there. With them, protoc or buf compile the sources, and `--set` serves what these write."#,
        Kind::LeftOut =>
            r#"A word of proto2 or of editions where it would begin a statement: `extend`, `extensions`, `group`, `required`, `weak`.

Where: that word.

    syntax = "proto3";
    message A { required int32 x = 1; }

    a.proto:2:13: LeftOut

Cure: `--skip-custom-options` compiles the sources as if `extend`, and `weak` after `import`, were not there. Leave out `required`; turn a `group` into a message and a field. `extensions` is of proto2, whose files are for protoc; `--set` serves what it writes."#,
        Kind::TooDeep => r#"Messages stand in one another more than 64 deep.

Where: the first token too deep.

    { echo 'syntax = "proto3";'; for i in $(seq 65); do printf 'message A {'; done; } > a.proto

    a.proto:2:705: TooDeep

Cure: Move inner messages to the top, and name them from there."#,
        Kind::UnexpectedEnd => r#"The file ends in the middle of a statement.

Where: after the last byte.

    syntax = "proto3";
    message A {

    a.proto:3:1: UnexpectedEnd

Cure: Close the last brace, or end the last statement with `;`."#,
        Kind::NotProto3Syntax => r#"The file names another syntax than proto3.

Where: the syntax's string.

    syntax = "proto2";

    a.proto:1:10: NotProto3Syntax

Cure: Write `syntax = "proto3";`, and mend what proto3 has no longer; or leave the file to protoc."#,
        Kind::PackageTwice => r#"There is a second package statement.

Where: the second `package`.

    syntax = "proto3";
    package a; package b;

    a.proto:2:12: PackageTwice

Cure: A file has one package."#,
        Kind::ImportTwice => r#"An import that an earlier one equals.

Where: the later import's string.

    syntax = "proto3";
    import "a"; import "a";

    a.proto:2:20: ImportTwice

Cure: Leave one of them out."#,
        Kind::UnknownOption =>
            r#"The element may not have an option of this name. The options of each element are listed in docs/LANGUAGE.md.

Where: the first token of the option's name.

    syntax = "proto3";
    option x = 1;

    a.proto:2:8: UnknownOption

Cure: Look for a spelling mistake. `default` is of proto2: in proto3 a field that is not set has 0, false, or nothing in it. Of descriptor.proto's options twelve are not in the list, as `lazy` and `cc_generic_services`: `--skip-custom-options` compiles the sources as if they were not there, and `--set` serves what protoc writes."#,
        Kind::OptionTwice => r#"The element set this option before.

Where: the first token of the option's name.

    syntax = "proto3";
    option deprecated = true; option deprecated = true;

    a.proto:2:34: OptionTwice

Cure: Leave one of them out."#,
        Kind::BadOptionValue =>
            r#"The option takes a value of another kind: a string, a number, `true` or `false`, or one of its words.

Where: the first token of the value.

    syntax = "proto3";
    option go_package = 1;

    a.proto:2:21: BadOptionValue

Cure: Look the option up in docs/LANGUAGE.md."#,
        Kind::FieldNumberRange =>
            r#"A field number or a bound of a reserved range that is not 1 to 536,870,911. Or a field number from 19,000 to 19,999: these are kept for implementations.

Where: the number.

    syntax = "proto3";
    message A { int32 x = 19000; }

    a.proto:2:23: FieldNumberRange

Cure: Take another number."#,
        Kind::FieldNumberTwice =>
            r#"An earlier field of the message has this number. Members of oneofs are fields of the message.

Where: the later field's number.

    syntax = "proto3";
    message A { int32 x = 1; int32 y = 1; }

    a.proto:2:36: FieldNumberTwice

Cure: Give the new field a number that none had before."#,
        Kind::ReservedNumberUsed => r#"The number of a field or of an enum's value is reserved.

Where: the number, or its `-`.

    syntax = "proto3";
    message A { reserved 5; int32 x = 5; }

    a.proto:2:35: ReservedNumberUsed

Cure: Take another number: what was reserved was in use once, and old data may hold it."#,
        Kind::ReservedNameUsed => r#"The name of a field or of an enum's value is reserved.

Where: the name.

    syntax = "proto3";
    message A { reserved "x"; int32 x = 1; }

    a.proto:2:33: ReservedNameUsed

Cure: Take another name."#,
        Kind::ReservedOverlap => r#"A reserved range shares a number with an earlier one.

Where: the later range's first token.

    syntax = "proto3";
    message A { reserved 1 to 3, 3; }

    a.proto:2:30: ReservedOverlap

Cure: Make one range of both."#,
        Kind::ReservedNameTwice => r#"A name is reserved twice.

Where: the later name's string.

    syntax = "proto3";
    message A { reserved "x", "x"; }

    a.proto:2:27: ReservedNameTwice

Cure: Leave one of them out."#,
        Kind::ReservedBackwards => r#"A reserved range ends before it begins.

Where: the range's first token.

    syntax = "proto3";
    message A { reserved 3 to 1; }

    a.proto:2:22: ReservedBackwards

Cure: Exchange its bounds."#,
        Kind::JsonNameTwice =>
            r#"Two fields of a message have one name in JSON. `a_b` is `aB` there, unless `json_name` says something else.

Where: the later field's name.

    syntax = "proto3";
    message A { int32 a_b = 1; int32 aB = 2; }

    a.proto:2:34: JsonNameTwice

Cure: Rename one of them, or give it a `json_name`. Two fields of the same name have one name in JSON, too."#,
        Kind::PackedOnWrongKind =>
            r#"`packed = true` on a field that is not repeated, is a string or bytes, or is a map.

Where: the option's name.

    syntax = "proto3";
    message A { int32 x = 1 [packed = true]; }

    a.proto:2:26: PackedOnWrongKind

Cure: Leave the option out: repeated numbers are packed in proto3 anyway."#,
        Kind::JstypeOnWrongKind =>
            r#"`jstype` says string or number on a field whose type is no integer of 64 bits.

Where: the option's name.

    syntax = "proto3";
    message A { int32 x = 1 [jstype = JS_STRING]; }

    a.proto:2:26: JstypeOnWrongKind

Cure: Leave the option out."#,
        Kind::EnumEmpty => r#"An enum has no value.

Where: the enum's name.

    syntax = "proto3";
    enum E {}

    a.proto:2:6: EnumEmpty

Cure: Give it a value of the number 0."#,
        Kind::EnumFirstNotZero =>
            r#"The first value of an enum is not 0, which a field has that is not set.

Where: the number, or its `-`.

    syntax = "proto3";
    enum E { A = 1; }

    a.proto:2:14: EnumFirstNotZero

Cure: Begin with a value of the number 0, as `E_UNSPECIFIED = 0;`."#,
        Kind::EnumNumberRange =>
            r#"An enum's number or a bound of its reserved range that does not fit 32 bits with a sign.

Where: the number, or its `-`.

    syntax = "proto3";
    enum E { A = 0; B = 2147483648; }

    a.proto:2:21: EnumNumberRange

Cure: Take another number."#,
        Kind::EnumNumberTwice => r#"An earlier value has this number.

Where: the later value's number, or its `-`.

    syntax = "proto3";
    enum E { A = 0; B = 0; }

    a.proto:2:21: EnumNumberTwice

Cure: Take another number, or write `option allow_alias = true;` in the enum."#,
        Kind::OneofEmpty => r#"A oneof has no member.

Where: the oneof's name.

    syntax = "proto3";
    message A { oneof o {} }

    a.proto:2:19: OneofEmpty

Cure: Give it a field, or leave it out."#,
        Kind::NameTooLong =>
            r#"A name has more than 255 bytes, or a full name, with its package and the messages around it, more than 1,023.

Where: the name; for a made one its field's name; for a package its first part.

    printf 'syntax = "proto3";\nmessage %s {}\n' "$(head -c 256 /dev/zero | tr '\0' a)" > a.proto

    a.proto:2:9: NameTooLong

Cure: Shorten it."#,
        Kind::ImportMissing =>
            r#"No file of this name is below the root or below an `--include` folder. A name is the path from there, with `/`.

Where: the import's string.

    syntax = "proto3";
    import "b.proto";

    a.proto:2:8: ImportMissing

Cure: Set `--root` to the folder from which imports are written, or name another one by `--include`. Nothing is bundled: `--include /usr/include` takes what is imported from an installed protobuf. `--skip-custom-options` leaves out imports of what is no source. `describe` reads one file alone: a file with imports is for `compile`. In a set no file has this name: `protoc --include_imports`, and `buf build`, write a set with all that its files import."#,
        Kind::ImportCycle => r#"The file imports itself, or a file that reaches it.

Where: the import's string.

    printf 'syntax = "proto3";\nimport "b.proto";\n' > a.proto
    printf 'syntax = "proto3";\nimport "a.proto";\n' > b.proto

    a.proto:2:8: ImportCycle

Cure: Move what both need to a third file."#,
        Kind::NameTwice =>
            r#"Another element of these files has this full name. Values of an enum are named beside it, not within it. A package may stand in many files; an element may not have a package's name.

Where: the later name; for a made one its field's name; for a package its first part.

    syntax = "proto3";
    message A {}
    message A {}

    a.proto:3:9: NameTwice

Cure: Rename one of them, or put it in another package; values of enums are often given the enum's name in front."#,
        Kind::TooManyNames => r#"All files together declare more than 1,048,576 names.

Where: no file, and line 1, column 1.

    for f in 1 2 3 4 5 6 7 8; do
        awk -v f=$f 'BEGIN { printf "syntax = \"proto3\"; enum E%d { option allow_alias = true;", f
            for (i = 0; i < 131072; i++) printf "%c%d=0;", 96 + f, i; print "}" }' > $f.proto
    done

    :1:1: TooManyNames

Cure: Compile fewer files at once."#,
        Kind::TypeNotFound =>
            r#"No message and no enum that this file sees has this name. A file sees itself, what it imports, and what these import publicly. Of a compound name the innermost scope that has its first part decides.

Where: the type's first token.

    syntax = "proto3";
    message A { X x = 1; }

    a.proto:2:13: TypeNotFound

Cure: Import the file that declares it. If a nearer scope has the first part of the name, write it from its package on, or with a leading `.`."#,
        Kind::TypeNotMessage => r#"The type of a method is an enum.

Where: the type's first token.

    syntax = "proto3";
    enum E { Z = 0; }
    service S { rpc R(E) returns (E); }

    a.proto:3:19: TypeNotMessage

Cure: Put the enum in a message."#,
        Kind::PackedOnMessage => r#"`packed = true` on a field whose type is a message.

Where: the option's name.

    syntax = "proto3";
    message A { repeated A x = 1 [packed = true]; }

    a.proto:2:31: PackedOnMessage

Cure: Leave the option out."#,
        Kind::DescriptorTooLong => "The descriptor of one file has more than 16,777,216 bytes.

Where: the start of the file.

Cure: Split the file.",
        Kind::SetTooLong =>
            "The descriptors of all files have more than 1,073,741,824 bytes together.

Where: no file, and line 1, column 1.

Cure: Compile a folder further below.",
    }
}

/// What is said of a topic: its first line says what it means, its last how it is cured.
pub(crate) fn text_of(topic: Topic) -> &'static str
    ensures { result.now ≡ text_of topic }
{
    match topic {
        Topic::Kind(kind) => text_of_kind(kind),
        Topic::MalformedSet =>
            r#"The bytes are no `FileDescriptorSet`: they are no row of fields, as the encoding of Protocol Buffers has them.

Where: the set.

    printf 'syntax = "proto3";\n' > a.pb

    a.pb: MalformedSet

Cure: Give the set that `protoc --include_imports --descriptor_set_out=FILE`, `buf build --as-file-descriptor-set -o FILE` or `compile` wrote. Sources are for `--root`."#,
        Topic::MalformedFile => r#"A file of the set is no row of fields, or its name is no UTF-8.

Where: the file, by its position in the set.

    printf '\n\3\n\5a' > a.pb

    a.pb, file[0]: MalformedFile

Cure: Write the set again: it was cut short or changed."#,
        Topic::FileWithoutName => r#"A file of the set has no name, or an empty one.

Where: the file, by its position in the set.

    printf '\n\3\22\1p' > a.pb

    a.pb, file[0]: FileWithoutName

Cure: Give each file the name by which others import it."#,
        Topic::MalformedContents =>
            r#"An element of a file is no row of fields, or more than 66 stand in one another, or a name in it is no UTF-8.

Where: the file.

    printf '\n\16\n\7a.proto"\3\n\5A' > a.pb

    a.proto: MalformedContents

Cure: Write the set again: it was cut short or changed."#,
        Topic::Folder => "A folder of sources, or what stands below it, could not be listed or read.

Where: one of these, and the line that finds it below `DIR`:

- `DIR` is not there, or is a file: `ls -d DIR/`
- a folder that may not be listed, or a file that may not be read: `find -L DIR ! -readable`
- a name that is no UTF-8: `find DIR | LC_ALL=C.UTF-8 grep -naxv '.*'`
- a folder more than 64 folders below: `find -L DIR -mindepth 65 -type d`
- a link that leads to a folder in which it lies: `find -L DIR -name ''`
- a link that leads nowhere, a pipe or a device, whose name ends in `.proto`: `find -L DIR -name '*.proto' ! -type f ! -type d`
- more than 1,048,576 files and folders: `find -L DIR | wc -l`
- a file that the command line names, and that is not there

Cure: `--verbose` names the entry and says what is wrong with it, and so does `check`. Mend it, or take it out of the folder.",
        Topic::Set => "The file that `--set` names could not be read.

Where: it is not there, is a folder, or may not be read: `ls -l FILE`.

Cure: Name the file by its path. `/dev/stdin` reads the set of `serve` from standard input.",
        Topic::Listen => "The service cannot listen at the address and the port that it was given.

Where: one of these:

- a name in place of an address: `localhost:8080`
- no port, or one over 65,535
- the port is taken: `ss -ltnp` tells by whom
- an address that is none of this machine's: `ip address` lists those
- a port below 1,024, which needs a privilege

Cure: Write an address and a port that are free, as `127.0.0.1:8080` or `[::1]:8080`. Port 0 takes any free one, which the first line of the output then tells.",
        Topic::Input => "Standard input could not be read.

Where: `describe` reads a source there, and `answer` a request body. A folder is no input.

Cure: Give the file itself, as `schema_server describe a.proto < a.proto`.",
        Topic::Output => "What was to be written could not be written whole.

Where: standard output, or the file that `--output` names. There is no room, or a reader went away; or the file may not be written, or is a folder.

Cure: See `df` for the room, and `ls -ld` for who may write there. What stood in the file stands there still, but where README says that it is written over.",
        Topic::Accept =>
            "The service could not go on: the system takes no more connections for it, or starts no thread.

Where: the listener.

Cure: Start it again. See `ulimit -n` for the files that it may have open, and `ulimit -u` for its threads.",
        Topic::Memory => "The allocator had no memory, or no thread could be started for want of it.

Where: anywhere. No part of a file that `--output` names has changed.

Cure: Give the run more memory, or fewer workers: `--workers 1`. docs/GUIDE.md says how much a service takes.",
    }
}
