//! The syntax tree of a file: one type for each element of the language, with the span of every token.
//!
//! Proto3 language specification, "Lexical Elements" to "Proto File".
//!
//! Statements stand behind pointers: a list of statements has for each the room of the smallest, a semicolon.
#![tactic(auto)]

mod constant;
mod enumeration;
mod field;
mod file;
mod list;
mod literal;
mod map_field;
mod message;
mod name;
mod oneof;
mod option;
mod reserved;
mod service;
pub mod text;

pub use constant::{Constant, ConstantNumber, Sign};
pub use enumeration::{Enum, EnumItem, EnumValue};
pub use field::{Declarator, Field, FieldType, Label};
pub use file::{FileTree, Import, Package, Statement, Syntax};
pub use list::{Items, Next, Separated};
pub use literal::{NumberLiteral, SignedNumber, StringLiteral, StringValue};
pub use map_field::{MapField, MapType};
pub use message::{Message, MessageItem};
pub use name::{FullName, Name, NamePart, TypeName};
pub use oneof::{Oneof, OneofField, OneofItem};
pub use option::{OptionStatement, Options, Setting};
pub use reserved::{Range, RangeEnd, Reserved, ReservedItems, UpperBound};
pub use service::{Rpc, RpcBlock, RpcBody, RpcItem, RpcType, Service, ServiceItem};
