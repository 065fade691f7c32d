//! Values behind pointers, for trees.

ghost use Rattle.std.specs.Prelude.{◌≡◌, IfOk};

use std::alloc::{AllocError, Global};
use std::marker::Model;

/// A value in a `Box`, so that an enum has for it the room of a pointer. Contracts see the value, wherever it stands,
/// so a recursive type may hold itself so.
#[derive(Drop)]
pub struct Boxed<T> {
    content: Box<T>,
}

impl<T> Model for Boxed<T> {
    ghost Value = { T };

    ghost coded = { T.code };

    ghost view = { λ boxed. boxed.content.value };
}

impl<T: Drop> Boxed<T> {
    /// The value, put behind a pointer.
    pub fn new(alloc: Global, value: T) -> Result<Boxed<T>, AllocError>
        ensures { IfOk result (λ boxed. boxed ≡ value) }
    {
        Ok(Boxed {
            content: Box::new(alloc, value)?,
        })
    }
}

impl<T> Boxed<T> {
    /// The value.
    pub fn get(&self) -> &T
        ensures { result.now ≡ self.now }
    {
        &self.content
    }
}
