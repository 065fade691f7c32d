//! What each node leads to, where every edge goes to a smaller node.

ghost use Rattle.std.specs.List.Sorted.{IsStrictlyIncreasing};
ghost use Rattle.std.specs.Prelude.{◌≡◌, ◌↔◌, List, ℕ, ◌<◌, ◌≤◌, ◌++◌, ◌∷◌, [], length, slice_index_or, Contains, IfOk, OnOk};
ghost use Rattle.digraph.specs.Edges.{IsFalling, graph_of};
ghost use Rattle.digraph.specs.Reaches.{AreClosed, AreReaches, InLists, IsUnion};
ghost use Rattle.digraph.specs.Marks.{AreMarked, NoneMarked};

use crate::lists::Lists;
use crate::marks::{clear, no_marks, visit};
use crate::search::row;
use std::alloc::{AllocError, Global};

/// Marks what stands in the lists of nodes. The list of a node that is marked is in those before it.
fn gather(
    lists: &Lists,
    nodes: &[usize],
    marks: &mut [bool],
    marked: &mut Vec<usize>,
) -> Result<(), AllocError>
    requires room { length lists.now ≤ length marks.old }
    requires nodes { (b : ℕ) → Contains nodes.now b → b < length lists.now }
    requires closed { AreClosed lists.now (length lists.now) }
    requires marked { AreMarked marks.old marked.old.items }
    requires empty { marked.old.items ≡ [] }
    ensures marked { OnOk result (AreMarked marks.new marked.new.items) }
    ensures gathered { OnOk result ((c : ℕ)
        → Contains marked.new.items c ↔ InLists lists.now nodes.now c) }
{
    for node in nodes {
        if !marks[*node] {
            visit(lists.get(*node), marks, marked)?;
        }
    }
    Ok(())
}

/// A node with what stands in the lists of others, in rising order. No node is marked before or afterwards.
fn union_of(
    alloc: Global,
    lists: &Lists,
    nodes: &[usize],
    own: usize,
    marks: &mut [bool],
) -> Result<Vec<usize>, AllocError>
    requires own { own < length marks.old }
    requires room { length lists.now ≤ length marks.old }
    requires nodes { (b : ℕ) → Contains nodes.now b → b < length lists.now }
    requires closed { AreClosed lists.now (length lists.now) }
    requires none { NoneMarked marks.old }
    ensures union { IfOk result (λ union. IsUnion lists.now nodes.now own union.items) }
    ensures none { OnOk result (NoneMarked marks.new) }
{
    let mut union = Vec::new(alloc);
    gather(lists, nodes, marks, &mut union)?;
    let own = [own];
    visit(&own, marks, &mut union)?;
    clear(&union, marks);
    union.sort_unstable();
    Ok(union)
}

/// Appends the union of a node with what stands in the lists of lower ones, which are below it. That of one list is the
/// list and the node behind it, so that a node of a chain takes constant time.
fn push_union(
    alloc: Global,
    lists: &mut Lists,
    nodes: &[usize],
    own: usize,
    marks: &mut [bool],
) -> Result<(), AllocError>
    requires own { own < length marks.old }
    requires room { length lists.old ≤ length marks.old }
    requires nodes { (b : ℕ) → Contains nodes.now b → b < length lists.old }
    requires closed { AreClosed lists.old (length lists.old) }
    requires rises { (b : ℕ) → b < length lists.old
        → IsStrictlyIncreasing (slice_index_or lists.old b []) }
    requires below { (b c : ℕ) → b < length lists.old
        → Contains (slice_index_or lists.old b []) c → c < own }
    requires none { NoneMarked marks.old }
    ensures union { OnOk result ((union : List ℕ) × (lists.new ≡ lists.old ++ union ∷ [])
        × IsUnion lists.old nodes.now own union) }
    ensures none { OnOk result (NoneMarked marks.new) }
{
    if let [node] = nodes {
        return lists.push_extended(*node, own);
    }
    let union = union_of(alloc, lists, nodes, own, marks)?;
    lists.push(&union)
}

/// What each node leads to, itself among it, in rising order.
pub fn reach_lists(alloc: Global, graph: &[Vec<usize>]) -> Result<Lists, AllocError>
    requires { IsFalling (graph_of graph.now) }
    ensures size { IfOk result (λ lists. length lists ≡ length graph.now) }
    ensures reaches { IfOk result (λ lists. AreReaches (graph_of graph.now) lists
        (length graph.now)) }
{
    let mut marks = no_marks(alloc, graph.len())?;
    let mut lists = Lists::new(alloc);
    for own in 0..graph.len() {
        push_union(alloc, &mut lists, row(graph, own), own, &mut marks)?;
    }
    Ok(lists)
}
