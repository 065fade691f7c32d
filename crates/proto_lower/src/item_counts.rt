//! How much the statements of a message declare, so that each list gets the room that it needs at once.

use crate::field::is_optional;
use proto_tree::MessageItem;

/// How many there are of each kind. The oneofs are those of the source and those that fields make, and an entry of a map
/// field is a nested message.
#[derive(Clone, Copy)]
pub(crate) struct ItemCounts {
    pub(crate) fields: usize,
    pub(crate) oneofs: usize,
    pub(crate) enums: usize,
    pub(crate) nested: usize,
}

/// One more.
fn count_one(count: &mut usize) {
    *count = count.saturating_add(1);
}

impl ItemCounts {
    /// Counts what one statement declares.
    fn add(&mut self, item: &MessageItem) {
        match item {
            MessageItem::Field(field) => {
                count_one(&mut self.fields);
                if is_optional(&field.get().label) {
                    count_one(&mut self.oneofs);
                }
            }
            MessageItem::Map(_) => {
                count_one(&mut self.fields);
                count_one(&mut self.nested);
            }
            MessageItem::Oneof(oneof) => {
                count_one(&mut self.oneofs);
                self.fields = self.fields.saturating_add(oneof.get().items.len());
            }
            MessageItem::Enum(_) => count_one(&mut self.enums),
            MessageItem::Message(_) => count_one(&mut self.nested),
            _ => {}
        }
    }

    /// What these statements declare.
    pub(crate) fn of(items: &[MessageItem]) -> ItemCounts {
        let mut counts = ItemCounts {
            fields: 0,
            oneofs: 0,
            enums: 0,
            nested: 0,
        };
        for item in items {
            counts.add(item);
        }
        counts
    }
}
