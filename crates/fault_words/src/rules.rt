//! What is said of the rules that a file breaks by itself: most often, where the other one stands.

use crate::settings::{put_bracketed, put_settings};
use crate::words::{File, Other, Words};
use proto_base::{FileError, Kind, Limits, Place, Spot};
use proto_checks::{
    FIELD_MAX, MarkedNumber, MarkedRange, VALUE_MAX, field_numbers, marked_ranges, value_numbers,
};
use proto_desc::file::FileDesc;
use proto_desc::message::MessageDesc;
use proto_desc::rules::Element;
use proto_file::tree_of;
use proto_lower::lower;
use proto_options::{Reserves, names_listed, ranges_listed, rpc_items};
use proto_tree::text::joined;
use proto_tree::{
    Enum, EnumItem, FileTree, Message, MessageItem, Oneof, OneofItem, Service, ServiceItem,
    Statement,
};
use std::alloc::{AllocError, Global};
use std::collections::BTreeMap;

/// Of more ranges none is looked for beside another.
const MANY: usize = 256;

/// What is said of a file, by the places and the kinds of its faults. There are more than it has: an element that may share a number
/// with another is said to have it, too.
#[derive(Drop)]
pub(crate) struct Rules<'s> {
    pub(crate) alloc: Global,
    file: &'s str,
    words: BTreeMap<Spot, Words<'s>>,
}

impl<'s> Rules<'s> {
    /// Says what a fault is about, and where else something stands that it is about.
    pub(crate) fn put(
        &mut self,
        place: Place,
        kind: Kind,
        about: String,
        other: Option<Place>,
    ) -> Result<(), AllocError> {
        let file = self.file;
        let other = other.map(|place| Other { file, place });
        self.words
            .insert(Spot { place, kind }, Words { about, other })?;
        Ok(())
    }

    /// Says of each number that an earlier one equals where that stands.
    fn put_numbers_twice(
        &mut self,
        kind: Kind,
        about: &str,
        numbers: &[MarkedNumber],
    ) -> Result<(), AllocError> {
        let mut seen = BTreeMap::new(self.alloc);
        for marked in numbers {
            match seen.get(&marked.number).copied() {
                Some(first) => {
                    let about = String::from_str(self.alloc, about)?;
                    self.put(marked.place, kind, about, Some(first))?;
                }
                None => {
                    seen.insert(marked.number, marked.place)?;
                }
            }
        }
        Ok(())
    }

    /// Says of a range which earlier one has a number with it.
    fn put_overlap(
        &mut self,
        earlier: &[MarkedRange],
        range: &MarkedRange,
    ) -> Result<(), AllocError> {
        let Some(first) = earlier.iter().find(|other| other.start <= range.end
            && range.start <= other.end)
        else {
            return Ok(());
        };
        let about = String::from_str(self.alloc, "an earlier range has a number of this one")?;
        self.put(range.place, Kind::ReservedOverlap, about, Some(first.place))
    }

    /// Says of a number in use which range reserves it.
    fn put_used(
        &mut self,
        ranges: &[MarkedRange],
        number: &MarkedNumber,
    ) -> Result<(), AllocError> {
        let Some(range) = ranges.iter().find(|range| range.start <= number.number
            && number.number <= range.end)
        else {
            return Ok(());
        };
        let about = String::from_str(self.alloc, "this number is reserved")?;
        self.put(
            number.place,
            Kind::ReservedNumberUsed,
            about,
            Some(range.place),
        )
    }

    /// Says what reserved ranges have with each other and with numbers in use.
    fn put_ranges(
        &mut self,
        ranges: &[MarkedRange],
        numbers: &[MarkedNumber],
    ) -> Result<(), AllocError> {
        if ranges.len() > MANY {
            return Ok(());
        }
        for (at, range) in ranges.iter().enumerate() {
            self.put_overlap(&ranges[..at], range)?;
        }
        for number in numbers {
            self.put_used(ranges, number)?;
        }
        Ok(())
    }

    /// Says of each name that is reserved twice where the first one stands; gives the places of the first ones.
    fn put_reserved_names<'i, I: Reserves<'i>>(
        &mut self,
        items: &[I],
    ) -> Result<BTreeMap<String, Place>, AllocError> {
        let mut seen = BTreeMap::new(self.alloc);
        for name in names_listed(self.alloc, items)? {
            let place = name.first.span.start;
            let text = joined(self.alloc, name)?;
            let key = String::from_str(self.alloc, text.as_str())?;
            match seen.get(&key).copied() {
                Some(first) => {
                    let about = String::from_str(self.alloc, "this name is reserved already")?;
                    self.put(place, Kind::ReservedNameTwice, about, Some(first))?;
                }
                None => {
                    seen.insert(key, place)?;
                }
            }
        }
        Ok(seen)
    }

    /// Says of a name in use where it is reserved.
    fn put_name(
        &mut self,
        reserved: &BTreeMap<String, Place>,
        name: &str,
        place: Place,
    ) -> Result<(), AllocError> {
        if reserved.is_empty() {
            return Ok(());
        }
        let key = String::from_str(self.alloc, name)?;
        let Some(first) = reserved.get(&key).copied() else {
            return Ok(());
        };
        let about = format!(in self.alloc; "`{name}` is reserved")?;
        self.put(place, Kind::ReservedNameUsed, about, Some(first))
    }

    /// Says what the numbers of a message's fields, and what it reserves, break.
    fn put_message_numbers(&mut self, items: &[MessageItem<'s>]) -> Result<(), AllocError> {
        let numbers = field_numbers(self.alloc, items)?;
        let about = "an earlier field has this number";
        self.put_numbers_twice(Kind::FieldNumberTwice, about, &numbers)?;
        let listed = ranges_listed(self.alloc, items)?;
        let ranges = marked_ranges(self.alloc, &listed, FIELD_MAX)?;
        self.put_ranges(&ranges, &numbers)
    }

    /// Says what the numbers of an enum's values, and what it reserves, break.
    fn put_enum_numbers(&mut self, items: &[EnumItem<'s>]) -> Result<(), AllocError> {
        let numbers = value_numbers(self.alloc, items)?;
        let about = "an earlier value has this number";
        self.put_numbers_twice(Kind::EnumNumberTwice, about, &numbers)?;
        let listed = ranges_listed(self.alloc, items)?;
        let ranges = marked_ranges(self.alloc, &listed, VALUE_MAX)?;
        self.put_ranges(&ranges, &numbers)
    }

    /// Says what an enum breaks.
    fn put_enum(&mut self, declared: &Enum<'s>) -> Result<(), AllocError> {
        let items = declared.items.as_slice();
        self.put_enum_numbers(items)?;
        put_settings(self, Element::Enum, items)?;
        let reserved = self.put_reserved_names(items)?;
        for item in items {
            if let EnumItem::Value(value) = item {
                let value = value.get();
                self.put_name(&reserved, value.name.text, value.name.span.start)?;
                put_bracketed(self, Element::EnumValue, &value.options)?;
            }
        }
        Ok(())
    }

    /// Says what the members of a oneof break.
    fn put_oneof(
        &mut self,
        reserved: &BTreeMap<String, Place>,
        oneof: &Oneof<'s>,
    ) -> Result<(), AllocError> {
        let items = oneof.items.as_slice();
        put_settings(self, Element::Oneof, items)?;
        for item in items {
            if let OneofItem::Field(field) = item {
                let declarator = &field.get().declarator;
                self.put_name(reserved, declarator.name.text, declarator.name.span.start)?;
                put_bracketed(self, Element::Field, &declarator.options)?;
            }
        }
        Ok(())
    }

    /// Says what a statement of a message breaks, but a message.
    fn put_item(
        &mut self,
        reserved: &BTreeMap<String, Place>,
        item: &MessageItem<'s>,
    ) -> Result<(), AllocError> {
        let declarator = match item {
            MessageItem::Field(field) => &field.get().declarator,
            MessageItem::Map(map) => &map.get().declarator,
            MessageItem::Oneof(oneof) => return self.put_oneof(reserved, oneof.get()),
            MessageItem::Enum(declared) => return self.put_enum(declared.get()),
            _ => return Ok(()),
        };
        self.put_name(reserved, declarator.name.text, declarator.name.span.start)?;
        put_bracketed(self, Element::Field, &declarator.options)
    }

    /// Says what the statements of a message break, without those of the messages within it.
    fn put_body(&mut self, items: &[MessageItem<'s>]) -> Result<(), AllocError> {
        self.put_message_numbers(items)?;
        put_settings(self, Element::Message, items)?;
        let reserved = self.put_reserved_names(items)?;
        for item in items {
            self.put_item(&reserved, item)?;
        }
        Ok(())
    }

    fn put_service(&mut self, service: &Service<'s>) -> Result<(), AllocError> {
        let items = service.items.as_slice();
        put_settings(self, Element::Service, items)?;
        for item in items {
            if let ServiceItem::Rpc(rpc) = item {
                put_settings(self, Element::Method, rpc_items(&rpc.get().body))?;
            }
        }
        Ok(())
    }

    /// Says of the second package where the first one stands.
    fn put_packages(&mut self, statements: &[Statement<'s>]) -> Result<(), AllocError> {
        let mut first = None;
        for statement in statements {
            if let Statement::Package(package) = statement {
                let place = package.get().keyword.start;
                match first {
                    Some(earlier) => {
                        let about = String::from_str(self.alloc, "the file has a package already")?;
                        self.put(place, Kind::PackageTwice, about, Some(earlier))?;
                    }
                    None => first = Some(place),
                }
            }
        }
        Ok(())
    }

    /// Says of an import that an earlier one equals where that stands, and of a JSON name.
    fn put_texts_twice(
        &mut self,
        seen: &mut BTreeMap<String, Place>,
        kind: Kind,
        text: &str,
        place: Place,
    ) -> Result<(), AllocError> {
        let key = String::from_str(self.alloc, text)?;
        match seen.get(&key).copied() {
            Some(first) => {
                let about = match kind {
                    Kind::ImportTwice => String::from_str(
                        self.alloc,
                        "this file is imported already",
                    )?,
                    _ => format!(in self.alloc; "`{text}` is the JSON name of an earlier field")?,
                };
                self.put(place, kind, about, Some(first))
            }
            None => {
                seen.insert(key, place)?;
                Ok(())
            }
        }
    }

    /// Says what the JSON names of a message's fields break, and those of the messages within it.
    fn put_json(&mut self, message: &MessageDesc) -> Result<(), AllocError> {
        let mut seen = BTreeMap::new(self.alloc);
        for field in message.fields.as_slice() {
            let json = field.json_name.text(self.alloc)?;
            self.put_texts_twice(&mut seen, Kind::JsonNameTwice, json.as_str(), field.place)?;
        }
        for nested in message.nested.as_slice() {
            self.put_json(nested)?;
        }
        Ok(())
    }

    /// Says what the names that a file's descriptor has break.
    fn put_desc(&mut self, desc: &FileDesc) -> Result<(), AllocError> {
        let mut seen = BTreeMap::new(self.alloc);
        for import in desc.imports.as_slice() {
            let path = import.path.as_str();
            self.put_texts_twice(&mut seen, Kind::ImportTwice, path, import.place)?;
        }
        for message in desc.messages.as_slice() {
            self.put_json(message)?;
        }
        Ok(())
    }

    /// Says what the statements of a file break.
    fn put_statements(&mut self, statements: &[Statement<'s>]) -> Result<(), AllocError> {
        self.put_packages(statements)?;
        put_settings(self, Element::File, statements)?;
        for statement in statements {
            match statement {
                Statement::Message(message) => put_message(self, message.get())?,
                Statement::Enum(declared) => self.put_enum(declared.get())?,
                Statement::Service(service) => self.put_service(service.get())?,
                _ => {}
            }
        }
        Ok(())
    }
}

/// Says what a message breaks, and those within it.
fn put_message<'s>(rules: &mut Rules<'s>, message: &Message<'s>) -> Result<(), AllocError> {
    let items = message.items.as_slice();
    rules.put_body(items)?;
    for item in items {
        if let MessageItem::Message(nested) = item {
            put_message(rules, nested.get())?;
        }
    }
    Ok(())
}

/// What is said of a file that has this tree.
fn words_of_tree<'s>(
    alloc: Global,
    file: File<'s>,
    tree: &FileTree<'s>,
) -> Result<BTreeMap<Spot, Words<'s>>, AllocError> {
    let mut rules = Rules {
        alloc,
        file: file.name,
        words: BTreeMap::new(alloc),
    };
    rules.put_statements(tree.statements.as_slice())?;
    rules.put_desc(&lower(alloc, file.name, tree)?)?;
    Ok(rules.words)
}

/// What is said of the rules that a file breaks by itself; nothing where it is no file by its grammar.
pub(crate) fn rule_words<'s>(
    alloc: Global,
    file: File<'s>,
    limits: &Limits,
) -> Result<BTreeMap<Spot, Words<'s>>, AllocError> {
    match tree_of(alloc, file.text, limits) {
        Ok(tree) => words_of_tree(alloc, file, &tree),
        Err(FileError::First(_)) => Ok(BTreeMap::new(alloc)),
        Err(FileError::NoMemory) => Err(AllocError),
    }
}
