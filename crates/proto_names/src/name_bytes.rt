//! Names that are read from their ends on, as entries have them: a name, and the scope before it.

ghost use Rattle.std.specs.Prelude.{◌≡◌, ◌↔◌, ◌<◌, ◌≤◌, ◌++◌, ◌∷◌, [], List, None, ℕ, length, IfOk, IfSome, IsTrue, IsUtf8, MatchOption, string_bytes};
ghost use Rattle.proto_desc.specs.DeclaredNames.{scoped};
ghost use Rattle.proto_names.specs.Order.{end_cmp};
ghost use Rattle.proto_names.specs.ScopeParts.{IsParted};

use crate::scope_before::ScopeBefore;
use memchr::memrchr;
use std::alloc::{AllocError, Global};
use std::cmp::Ordering;
use std::marker::Model;

/// The bytes of a name that are not yet read. Contracts see it as these.
#[derive(Drop)]
pub(crate) struct NameBytes<'e> {
    /// Those before which the scope stands, with a dot between.
    pub(crate) unread: &'e [u8],
    pub(crate) scope: ScopeBefore<'e>,
}

impl<'e> Model for NameBytes<'e> {
    ghost use Rattle.std.specs.Prelude.{List, ℕ};
    ghost use Rattle.proto_desc.specs.DeclaredNames.{scoped};
    ghost use Rattle.proto_names.specs.ScopeBefore.{IsNamed, scope_text};

    ghost Value = { List ℕ };

    ghost view = { λ bytes. scoped (scope_text bytes.scope) bytes.unread.now };

    ghost invariant = { λ bytes. IsNamed bytes.scope };
}

impl<'e> NameBytes<'e> {
    /// No bytes.
    pub(crate) fn empty() -> NameBytes<'static>
        ensures { result ≡ [] }
    {
        NameBytes {
            unread: &[],
            scope: ScopeBefore::Nothing,
        }
    }

    /// The bytes of the name in a scope.
    pub(crate) fn scoped(scope: &'e str, name: &'e str) -> NameBytes<'e>
        ensures { result ≡ scoped scope.now name.now }
    {
        let scope = if scope.is_empty() {
            ScopeBefore::Nothing
        } else {
            ScopeBefore::Text(scope.as_bytes())
        };
        NameBytes {
            unread: name.as_bytes(),
            scope,
        }
    }

    /// What stands behind the last dot, or all where there is none.
    pub(crate) fn last_part(&self) -> &'e [u8]
        ensures { (before : List ℕ) × IsParted self.now before result.now }
    {
        match memrchr(b'.', self.unread) {
            Some(dot) => &self.unread[dot + 1..],
            None => self.unread,
        }
    }

    /// Reads the last byte.
    fn next_back(&mut self) -> Option<u8>
        ensures { MatchOption result ((self.old ≡ []) × (self.new ≡ []))
            (λ byte. self.old ≡ self.new ++ byte ∷ []) }
    {
        if let Some((byte, before)) = self.unread.split_last() {
            self.unread = before;
            return Some(*byte);
        }
        match self.scope {
            ScopeBefore::Nothing => None,
            ScopeBefore::Text(text) => {
                self.unread = text;
                self.scope = ScopeBefore::Nothing;
                Some(b'.')
            }
            ScopeBefore::Entry(entries, position) => {
                *self = entries.bytes(position);
                Some(b'.')
            }
        }
    }

    /// Whether there are at most so many.
    pub(crate) fn is_within(self, most: usize) -> bool
        ensures { IsTrue result ↔ (length self.entry ≤ most) }
    {
        let mut left = self;
        let mut room = most;
        while left.unread.len() <= room {
            room -= left.unread.len();
            left.unread = &[];
            if left.next_back().is_none() {
                return true;
            }
            if room == 0 {
                return false;
            }
            room -= 1;
        }
        false
    }

    /// These bytes as a text of its own.
    pub(crate) fn to_text(self, alloc: Global) -> Result<String, AllocError>
        requires { IsUtf8 self }
        ensures { IfOk result (λ text. string_bytes text ≡ self.entry) }
    {
        let mut left = self;
        let mut bytes = Vec::new(alloc);
        while let Some(byte) = left.next_back() {
            bytes.push(byte)?;
        }
        bytes.reverse();
        String::from_utf8_lossy(alloc, &bytes)
    }
}

/// Takes as many bytes off the ends of two names as the shorter of their unread parts has, if these are the same.
fn take_alike(first: &mut NameBytes, second: &mut NameBytes) -> bool
    ensures alike { end_cmp first.old second.old ≡ end_cmp first.new second.new }
    ensures shorter { length first.new ≤ length first.old }
{
    let len = first.unread.len().min(second.unread.len());
    let (one, end) = first.unread.split_at(first.unread.len() - len);
    let (other, other_end) = second.unread.split_at(second.unread.len() - len);
    if end != other_end {
        return false;
    }
    first.unread = one;
    second.unread = other;
    true
}

/// Reads the last byte of each name; the order of the names, where it is told by these.
fn compare_last(first: &mut NameBytes, second: &mut NameBytes) -> Option<Ordering>
    ensures alike { result ≡ None → end_cmp first.old second.old ≡ end_cmp first.new second.new }
    ensures shorter { result ≡ None → length first.new < length first.old }
    ensures order { IfSome result (λ order. order ≡ end_cmp first.old second.old) }
{
    match (first.next_back(), second.next_back()) {
        (Some(one), Some(other)) => {
            if one == other {
                None
            } else {
                Some(one.cmp(&other))
            }
        }
        (Some(_), None) => Some(Ordering::Greater),
        (None, Some(_)) => Some(Ordering::Less),
        (None, None) => Some(Ordering::Equal),
    }
}

/// The order of two names, byte by byte from their ends on.
fn compare_bytes(first: NameBytes, second: NameBytes) -> Ordering
    ensures { result ≡ end_cmp first.entry second.entry }
{
    let mut first = first;
    let mut second = second;
    loop {
        if let Some(order) = compare_last(&mut first, &mut second) {
            return order;
        }
    }
}

/// The order of two names, from their ends on. Those that are the same mostly have the same parts, which are compared whole.
pub(crate) fn compare_names(first: NameBytes, second: NameBytes) -> Ordering
    ensures { result ≡ end_cmp first.entry second.entry }
{
    let mut first = first;
    let mut second = second;
    while take_alike(&mut first, &mut second) {
        if let Some(order) = compare_last(&mut first, &mut second) {
            return order;
        }
    }
    compare_bytes(first, second)
}

/// Whether two names have the same bytes.
pub(crate) fn is_same_name(first: NameBytes, second: NameBytes) -> bool
    ensures { IsTrue result ↔ (first.entry ≡ second.entry) }
{
    compare_names(first, second).is_eq()
}
