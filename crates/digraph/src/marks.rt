//! Marks at nodes.

ghost use Rattle.std.specs.Prelude.{◌≡◌, ◌⊎◌, ◌↔◌, ℕ, ◌<◌, length, Contains, IfOk, OnOk};
ghost use Rattle.digraph.specs.Marks.{AreMarked, IsFrontOf, NoneMarked};

use std::alloc::{AllocError, Global};

/// A list of nodes without a mark.
pub(crate) fn no_marks(alloc: Global, count: usize) -> Result<Vec<bool>, AllocError>
    ensures size { IfOk result (λ marks. length marks.items ≡ count) }
    ensures none { IfOk result (λ marks. NoneMarked marks.items) }
{
    vec![in alloc; false; count]
}

/// Marks the nodes that aren't marked yet, and appends them to the marked ones.
pub(crate) fn visit(
    nodes: &[usize],
    marks: &mut [bool],
    marked: &mut Vec<usize>,
) -> Result<(), AllocError>
    requires room { (c : ℕ) → Contains nodes.now c → c < length marks.old }
    requires marked { AreMarked marks.old marked.old.items }
    ensures marked { OnOk result (AreMarked marks.new marked.new.items) }
    ensures prefix { OnOk result (IsFrontOf marked.old.items marked.new.items) }
    ensures added { OnOk result ((c : ℕ)
        → Contains marked.new.items c ↔ (Contains marked.old.items c ⊎ Contains nodes.now c)) }
{
    for node in nodes {
        if !marks[*node] {
            marks[*node] = true;
            marked.push(*node)?;
        }
    }
    Ok(())
}

/// Takes the marks of these nodes away.
pub(crate) fn clear(nodes: &[usize], marks: &mut [bool])
    requires { AreMarked marks.old nodes.now }
    ensures { NoneMarked marks.new }
{
    for node in nodes {
        marks[*node] = false;
    }
}
