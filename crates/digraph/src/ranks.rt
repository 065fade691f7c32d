//! Ranks of nodes, in rounds: round `r` finds the nodes of rank `r`.
//!
//! A node is ready once the last of its successors has a rank, so a round looks only at the predecessors of the nodes
//! that the round before has found. Each edge is passed once: the rounds are linear in nodes and edges.

ghost use Rattle.std.specs.Prelude.{◌≡◌, ◌⊎◌, ◌↔◌, ℕ, ◌<◌, [], length, Contains, IfOk, IfSome, IfNone, OnOk};
ghost use Rattle.std.specs.List.Sorted.{IsStrictlyIncreasing};
ghost use Rattle.digraph.specs.Edges.{Edge, IsWithin, graph_of, successors};
ghost use Rattle.digraph.specs.Reaches.{HasNoCycle};
ghost use Rattle.digraph.specs.Marks.{IsMarked};
ghost use Rattle.digraph.specs.Ranks.{IsRanked, IsRankOrder, rank_in};
ghost use Rattle.digraph.specs.Rounds.{AllMarked, ArePassed, GoesInto, IsPassed, Stops};

use crate::marks::no_marks;
use crate::search::{predecessors, row};
use std::alloc::{AllocError, Global};

/// The rank of each node, and the nodes by rank and then by number.
#[derive(Drop)]
pub struct Ranking {
    pub ranks: Vec<usize>,
    pub order: Vec<usize>,
}

/// How many successors at the front of a row are marked, where `passed` of them are.
fn pass(successors: &[usize], marks: &[bool], passed: usize) -> usize
    requires room { (b : ℕ) → Contains successors.now b → b < length marks.now }
    requires passed { IsPassed marks.now successors.now passed }
    ensures passed { IsPassed marks.now successors.now result }
    ensures stops { Stops marks.now successors.now result }
{
    let mut count = passed;
    while count < successors.len() && marks[successors[count]] {
        count += 1;
    }
    count
}

/// Appends to `ready` those of the nodes whose successors are all marked. For each node `passed` has how many successors
/// at the front of its row are known to be marked.
fn append_ready(
    graph: &[Vec<usize>],
    marks: &[bool],
    nodes: &[usize],
    passed: &mut [usize],
    ready: &mut Vec<usize>,
) -> Result<(), AllocError>
    requires within { IsWithin (graph_of graph.now) (length marks.now) }
    requires nodes { (a : ℕ) → Contains nodes.now a → a < length graph.now }
    requires passed { ArePassed (graph_of graph.now) marks.now passed.old }
    ensures passed { OnOk result (ArePassed (graph_of graph.now) marks.now passed.new) }
    ensures ready { OnOk result ((a : ℕ) → Contains ready.new.items a
        ↔ (Contains ready.old.items a
        ⊎ (Contains nodes.now a × AllMarked (graph_of graph.now) marks.now a))) }
{
    for node in nodes {
        let successors = row(graph, *node);
        let count = pass(successors, marks, passed[*node]);
        passed[*node] = count;
        if count == successors.len() {
            ready.push(*node)?;
        }
    }
    Ok(())
}

/// The nodes with a successor among `settled` and all successors marked, in rising order. `turned` is the graph with
/// its edges turned round.
fn next_ready(
    alloc: Global,
    graph: &[Vec<usize>],
    turned: &[Vec<usize>],
    marks: &[bool],
    settled: &[usize],
    passed: &mut [usize],
) -> Result<Vec<usize>, AllocError>
    requires within { IsWithin (graph_of graph.now) (length marks.now) }
    requires turned { (b a : ℕ)
        → Edge (graph_of turned.now) b a ↔ Edge (graph_of graph.now) a b }
    requires settled { (b : ℕ) → Contains settled.now b → b < length turned.now }
    requires passed { ArePassed (graph_of graph.now) marks.now passed.old }
    ensures passed { OnOk result (ArePassed (graph_of graph.now) marks.now passed.new) }
    ensures rises { IfOk result (λ ready. IsStrictlyIncreasing ready.items) }
    ensures members { IfOk result (λ ready. (a : ℕ) → Contains ready.items a
        ↔ (GoesInto (graph_of graph.now) settled.now a
        × AllMarked (graph_of graph.now) marks.now a)) }
{
    let mut ready = Vec::new(alloc);
    for node in settled {
        append_ready(graph, marks, row(turned, *node), passed, &mut ready)?;
    }
    // A node stands there once for each of its edges to `settled`.
    ready.sort_unstable();
    ready.dedup();
    Ok(ready)
}

/// The nodes without a successor, in rising order.
fn leaves(alloc: Global, graph: &[Vec<usize>]) -> Result<Vec<usize>, AllocError>
    ensures rises { IfOk result (λ leaves. IsStrictlyIncreasing leaves.items) }
    ensures members { IfOk result (λ leaves. (a : ℕ) → Contains leaves.items a
        ↔ ((a < length graph.now) × (successors (graph_of graph.now) a ≡ []))) }
{
    let mut leaves = Vec::new(alloc);
    for node in 0..graph.len() {
        if row(graph, node).is_empty() {
            leaves.push(node)?;
        }
    }
    Ok(leaves)
}

/// Gives nodes a rank, and marks them.
fn settle(nodes: &[usize], rank: usize, marks: &mut [bool], ranks: &mut [usize])
    requires room { (c : ℕ) → Contains nodes.now c
        → (c < length marks.old) × (c < length ranks.old) }
    ensures marked { (c : ℕ) → IsMarked marks.new c
        ↔ (IsMarked marks.old c ⊎ Contains nodes.now c) }
    ensures ranked { (c : ℕ) → Contains nodes.now c → rank_in ranks.new c ≡ rank }
    ensures others { (c : ℕ) → (Contains nodes.now c → ⊥)
        → rank_in ranks.new c ≡ rank_in ranks.old c }
{
    for node in nodes {
        marks[*node] = true;
        ranks[*node] = rank;
    }
}

/// The ranks of the nodes, and the nodes by rank; None where a node can be left and come back to.
pub fn rank_nodes(alloc: Global, graph: &[Vec<usize>]) -> Result<Option<Ranking>, AllocError>
    requires { IsWithin (graph_of graph.now) (length graph.now) }
    ensures ranks { IfOk result (λ found. IfSome found
        (λ ranking. IsRanked (graph_of graph.now) ranking.ranks.items)) }
    ensures order { IfOk result (λ found. IfSome found
        (λ ranking. IsRankOrder ranking.ranks.items ranking.order.items)) }
    ensures none { IfOk result (λ found. IfNone found (HasNoCycle (graph_of graph.now) → ⊥)) }
{
    let turned = predecessors(alloc, graph)?;
    let mut marks = no_marks(alloc, graph.len())?;
    let mut ranks = vec![in alloc; 0; graph.len()]?;
    let mut passed = vec![in alloc; 0; graph.len()]?;
    let mut order = Vec::new(alloc);
    let mut ready = leaves(alloc, graph)?;
    let mut rank = 0;
    while !ready.is_empty() {
        settle(&ready, rank, &mut marks, &mut ranks);
        order.extend_from_slice(&ready)?;
        ready = next_ready(alloc, graph, &turned, &marks, &ready, &mut passed)?;
        rank += 1;
    }
    if order.len() < graph.len() {
        return Ok(None);
    }
    Ok(Some(Ranking { ranks, order }))
}
