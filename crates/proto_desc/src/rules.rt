//! The options that each element may have (`FileOptions` to `MethodOptions`).

ghost use Rattle.std.specs.Prelude.{◌≡◌, map};
ghost use Rattle.proto_desc.specs.Rules.{choice_number, rule_of, rules_of};
ghost use Rattle.proto_desc.specs.declared.rules.ValueKind.TheVariants.{Bool, OptimizeMode, JsType, IdempotencyLevel};

/// An element that may have options. A member of a oneof and a map field are fields.
#[derive(Clone, Copy, PartialEq, Eq)]
pub enum Element {
    File,
    Message,
    Field,
    Oneof,
    Enum,
    EnumValue,
    Service,
    Method,
}

/// What values an option takes: strings, or identifiers that stand for numbers.
#[derive(Clone, Copy, PartialEq, Eq)]
pub enum ValueKind {
    Text,
    Bool,
    OptimizeMode,
    JsType,
    IdempotencyLevel,
}

/// An option of an element.
pub struct OptionRule {
    /// Its name as sources spell it.
    pub word: &'static str,
    /// Its field number in the element's message of options. `json_name` has none: it is a field of the descriptor.
    pub number: Option<u32>,
    pub kind: ValueKind,
}

impl ValueKind {
    /// The number that an identifier stands for as a value of this kind.
    pub fn choice_number(self, word: &str) -> Option<u64>
        ensures { result ≡ choice_number self word.now }
    {
        match self {
            ValueKind::Text => None,
            ValueKind::Bool => bool_number(word),
            ValueKind::OptimizeMode => optimize_mode_number(word),
            ValueKind::JsType => js_type_number(word),
            ValueKind::IdempotencyLevel => idempotency_level_number(word),
        }
    }
}

fn bool_number(word: &str) -> Option<u64>
    ensures { result ≡ choice_number Bool word.now }
{
    match word {
        "false" => Some(0),
        "true" => Some(1),
        _ => None,
    }
}

fn optimize_mode_number(word: &str) -> Option<u64>
    ensures { result ≡ choice_number OptimizeMode word.now }
{
    match word {
        "SPEED" => Some(1),
        "CODE_SIZE" => Some(2),
        "LITE_RUNTIME" => Some(3),
        _ => None,
    }
}

fn js_type_number(word: &str) -> Option<u64>
    ensures { result ≡ choice_number JsType word.now }
{
    match word {
        "JS_NORMAL" => Some(0),
        "JS_STRING" => Some(1),
        "JS_NUMBER" => Some(2),
        _ => None,
    }
}

fn idempotency_level_number(word: &str) -> Option<u64>
    ensures { result ≡ choice_number IdempotencyLevel word.now }
{
    match word {
        "IDEMPOTENCY_UNKNOWN" => Some(0),
        "NO_SIDE_EFFECTS" => Some(1),
        "IDEMPOTENT" => Some(2),
        _ => None,
    }
}

/// Of a field: whether its numbers stand packed.
pub const PACKED: &str = "packed";

/// Of a field: how JavaScript has its number.
pub const JSTYPE: &str = "jstype";

/// Of a field: its JSON name.
pub const JSON_NAME: &str = "json_name";

/// Of an enum: whether its values may share a number.
pub const ALLOW_ALIAS: &str = "allow_alias";

/// A row: an option by its word, its number and the kind of its values.
macro_rules! rule {
    ($word:expr, $number:expr, $kind:ident) => {
        OptionRule {
            word: $word,
            number: $number,
            kind: ValueKind::$kind,
        }
    };
}

static FILE_RULES: &[OptionRule] = &[
    rule!("java_package", Some(1), Text),
    rule!("java_outer_classname", Some(8), Text),
    rule!("optimize_for", Some(9), OptimizeMode),
    rule!("java_multiple_files", Some(10), Bool),
    rule!("go_package", Some(11), Text),
    rule!("deprecated", Some(23), Bool),
    rule!("cc_enable_arenas", Some(31), Bool),
    rule!("objc_class_prefix", Some(36), Text),
    rule!("csharp_namespace", Some(37), Text),
    rule!("swift_prefix", Some(39), Text),
    rule!("php_class_prefix", Some(40), Text),
    rule!("php_namespace", Some(41), Text),
    rule!("php_metadata_namespace", Some(44), Text),
    rule!("ruby_package", Some(45), Text),
];

static MESSAGE_RULES: &[OptionRule] = &[rule!("deprecated", Some(3), Bool)];

static FIELD_RULES: &[OptionRule] = &[
    rule!(PACKED, Some(2), Bool),
    rule!("deprecated", Some(3), Bool),
    rule!(JSTYPE, Some(6), JsType),
    rule!(JSON_NAME, None, Text),
];

static ENUM_RULES: &[OptionRule] = &[
    rule!(ALLOW_ALIAS, Some(2), Bool),
    rule!("deprecated", Some(3), Bool),
];

static ENUM_VALUE_RULES: &[OptionRule] = &[rule!("deprecated", Some(1), Bool)];

static SERVICE_RULES: &[OptionRule] = &[rule!("deprecated", Some(33), Bool)];

static METHOD_RULES: &[OptionRule] = &[
    rule!("deprecated", Some(33), Bool),
    rule!("idempotency_level", Some(34), IdempotencyLevel),
];

/// The options that an element may have, by rising number, and `json_name` last.
pub fn rules(element: Element) -> &'static [OptionRule]
    ensures { map rule_of result.now ≡ rules_of element }
{
    match element {
        Element::File => FILE_RULES,
        Element::Message => MESSAGE_RULES,
        Element::Field => FIELD_RULES,
        Element::Oneof => &[],
        Element::Enum => ENUM_RULES,
        Element::EnumValue => ENUM_VALUE_RULES,
        Element::Service => SERVICE_RULES,
        Element::Method => METHOD_RULES,
    }
}
