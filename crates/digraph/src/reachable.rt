//! What each node leads to as a row of bits, where every edge goes to a smaller node.

ghost use Rattle.std.specs.Prelude.{◌≡◌, ℕ, ◌<◌, ◌≤◌, All, Contains, IfOk, OnOk, length};
ghost use Rattle.bit_matrix.specs.Changes.{columns_of};
ghost use Rattle.digraph.specs.Edges.{IsFalling, graph_of};
ghost use Rattle.digraph.specs.ReachRows.{AreReachRows, HasRowPushed, HasRowsJoined, HaveSuccessorsJoined};

use crate::search::row;
use bit_matrix::BitMatrix;
use std::alloc::{AllocError, Global};

/// Sets the bits in a row that are set in rows before it.
fn join_rows(matrix: &mut BitMatrix, row: usize, others: &[usize])
    requires row { row < matrix.old.rows }
    requires others { (b : ℕ) → Contains others.now b → b < row }
    ensures { HasRowsJoined matrix.old row others.now matrix.new }
{
    for other in others {
        matrix.join(row, *other);
    }
}

/// Appends a node's row: its label, and what is set in the rows of its successors.
fn push_joined(
    matrix: &mut BitMatrix,
    node: usize,
    label: usize,
    successors: &[usize],
) -> Result<(), AllocError>
    requires node { matrix.old.rows ≡ node }
    requires label { label < columns_of matrix.old }
    requires successors { (b : ℕ) → Contains successors.now b → b < node }
    ensures { OnOk result (HasRowPushed matrix.old label successors.now matrix.new) }
{
    matrix.push_row()?;
    matrix.insert(node, label);
    join_rows(matrix, node, successors);
    Ok(())
}

/// A row for each node, in which the labels of what the node leads to are set, its own among them.
pub fn reach_rows(
    alloc: Global,
    graph: &[Vec<usize>],
    labels: &[usize],
) -> Result<BitMatrix, AllocError>
    requires falls { IsFalling (graph_of graph.now) }
    requires size { length labels.now ≡ length graph.now }
    requires labels { All (λ label. label < length labels.now) labels.now }
    ensures { IfOk result (AreReachRows (graph_of graph.now) labels.now) }
{
    let mut matrix = BitMatrix::new(alloc, labels.len());
    for node in 0..graph.len() {
        push_joined(&mut matrix, node, labels[node], row(graph, node))?;
    }
    Ok(matrix)
}

/// Sets in each node's row what was set in the rows of its successors.
pub fn join_successors(matrix: &mut BitMatrix, graph: &[Vec<usize>])
    requires falls { IsFalling (graph_of graph.now) }
    requires size { matrix.old.rows ≡ length graph.now }
    ensures { HaveSuccessorsJoined (graph_of graph.now) matrix.old matrix.new }
{
    // From the last node on, so that the rows of successors are as they were.
    for node in (0..graph.len()).rev() {
        join_rows(matrix, node, row(graph, node));
    }
}
