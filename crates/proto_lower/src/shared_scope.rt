//! The scope of messages, which the names of their map fields' types share.

ghost use Rattle.std.specs.Prelude.{◌≡◌, IfOk};
ghost use Rattle.std.specs.Arc.{arc_str_bytes};

use std::alloc::{AllocError, Global};
use std::marker::Model;
use std::sync::ArcStr;

/// The full name of a scope behind a leading dot, empty where no package is around it. One copy of it is made for all
/// messages in it, where any has a map field. Contracts see the name.
#[derive(Drop)]
pub(crate) struct SharedScope<'f> {
    full: &'f str,
    copy: Option<ArcStr>,
}

impl<'f> Model for SharedScope<'f> {
    ghost use Rattle.std.specs.Prelude.{◌≡◌, IfSome, List, ℕ};
    ghost use Rattle.std.specs.Arc.{arc_str_bytes};

    ghost Value = { List ℕ };

    ghost view = { λ scope. scope.full.now };

    ghost invariant = { λ scope. IfSome scope.copy (λ copy. arc_str_bytes copy ≡ scope.full.now) };
}

impl<'f> SharedScope<'f> {
    pub(crate) fn new(full: &'f str) -> SharedScope<'f>
        ensures { result ≡ full.now }
    {
        SharedScope { full, copy: None }
    }

    /// The name, as it was handed in.
    pub(crate) fn full(&self) -> &'f str
        ensures { result.now ≡ self.now }
    {
        self.full
    }

    /// The name, once more.
    pub(crate) fn shared(&mut self, alloc: Global) -> Result<ArcStr, AllocError>
        ensures same { self.new ≡ self.old }
        ensures shared { IfOk result (λ shared. arc_str_bytes shared ≡ self.old) }
    {
        if let Some(copy) = &self.copy {
            return copy.clone();
        }
        let copy = ArcStr::from_str(alloc, self.full)?;
        self.copy = Some(copy.clone()?);
        Ok(copy)
    }
}
