//! Each reply by itself, from the first root that reaches each file.

ghost use Rattle.std.specs.Prelude.{Some, ◌≡◌, ◌<◌, ◌++◌, IfOk, OnOk, length};
ghost use Rattle.first_reach.specs.Reply.{reply_at, others_at, RootIsFirstToo};

use crate::mode::Mode;
use share_work::{ItemWork, Least, Reach};
use std::alloc::{AllocError, Global};

/// Lists the files of each reply.
#[derive(Drop)]
pub(crate) struct Replying<'a, F: Reach> {
    pub(crate) reach: &'a F,
    pub(crate) least: &'a Least,
    pub(crate) mode: Mode,
}

impl<F: Reach> ItemWork<Option<usize>> for Replying<'_, F> {
    ghost use Rattle.std.specs.Prelude.{◌≡◌, ◌<◌, length};
    ghost use Rattle.std.specs.Option.{ForSome};
    ghost use Rattle.first_reach.specs.Reply.{reply_at, RootIsFirstToo};

    type Out = Vec<usize>;

    ghost takes = { λ w i root. ForSome root (λ r. (length w.least.now ≡ F.files w.reach.now)
        × (r < F.files w.reach.now)
        × RootIsFirstToo (F.list w.reach.now) w.least.now i r) };

    ghost gives = { λ w i root out. out.items
        ≡ reply_at w.mode (F.list w.reach.now) w.least.now i root };

    fn item(
        &self,
        alloc: Global,
        position: usize,
        root: &Option<usize>,
    ) -> Result<Vec<usize>, AllocError> {
        match root {
            Some(root) => self.reply(alloc, *root, position as u64),
            None => Ok(Vec::new(alloc)),
        }
    }
}

impl<F: Reach> Replying<'_, F> {
    /// The files that the reply at a position carries. Where its root was reached before, all that the root reaches was,
    /// so that the list needn't be read.
    fn reply(&self, alloc: Global, root: usize, position: u64) -> Result<Vec<usize>, AllocError>
        requires count { length self.now.least.now ≡ F.files self.now.reach.now }
        requires root { (root < F.files self.now.reach.now)
            × RootIsFirstToo (F.list self.now.reach.now) self.now.least.now position root }
        ensures { IfOk result (λ v. v.items
            ≡ reply_at self.now.mode (F.list self.now.reach.now) self.now.least.now position
            (Some root)) }
    {
        let mut files = Vec::new(alloc);
        if self.least.get(root) == position {
            files.push(root)?;
            self.add_others(&mut files, root, position)?;
        } else if let Mode::Repeat = self.mode {
            files.push(root)?;
        }
        Ok(files)
    }

    /// Adds the files but the root that the root at the position is the first to reach.
    fn add_others(
        &self,
        files: &mut Vec<usize>,
        root: usize,
        position: u64,
    ) -> Result<(), AllocError>
        requires count { length self.now.least.now ≡ F.files self.now.reach.now }
        requires root { root < F.files self.now.reach.now }
        ensures { OnOk result (files.new.items ≡ files.old.items
            ++ others_at self.now.least.now position root (F.list self.now.reach.now root)) }
    {
        let mut k = 0;
        while let Some(file) = self.reach.reached(root, k) {
            if file != root && self.least.get(file) == position {
                files.push(file)?;
            }
            k += 1;
        }
        Ok(())
    }
}
