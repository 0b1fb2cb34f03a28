//! The nodes that the roots reach.

ghost use Rattle.std.specs.Prelude.{◌≡◌, ◌<◌, ℕ, List, IfOk, OnOk, All, length, false, replicate};
ghost use Rattle.pb_graph.specs.Graph.{IsGraph, needs_at};
ghost use Rattle.pb_graph.specs.Working.{AreClear, Clearing, AreReached, IsFound, Marked};

use crate::graph::Node;
use std::alloc::{AllocError, Global};

/// Returns the nodes that a node needs.
pub fn needs_at(nodes: &[Node], u: usize) -> &[usize]
    requires { u < length nodes.now }
    ensures { result.now ≡ needs_at nodes.now u }
{
    nodes[u].needs.as_slice()
}

/// Returns marks for this number of nodes. No mark is set.
pub fn no_marks(alloc: Global, count: usize) -> Result<Vec<bool>, AllocError>
    ensures { IfOk result (λ marks. marks.items ≡ replicate count false) }
{
    vec![in alloc; false; count]
}

/// Marks each node of a list, and appends each node that was not marked before to the waiting
/// nodes.
pub fn mark_all(
    marks: &mut Vec<bool>,
    waiting: &mut Vec<usize>,
    list: &[usize],
) -> Result<(), AllocError>
    requires { All (λ v. v < length marks.old.items) list.now }
    ensures { OnOk result (Marked list.now (length list.now)
        marks.old.items waiting.old.items marks.new.items waiting.new.items) }
{
    for v in list {
        if !marks[*v] {
            marks[*v] = true;
            waiting.push(*v)?;
        }
    }
    Ok(())
}

/// Returns the nodes that the roots reach, and marks these nodes.
fn found_from(
    alloc: Global,
    nodes: &[Node],
    marks: &mut Vec<bool>,
    roots: &[usize],
) -> Result<Vec<usize>, AllocError>
    requires graph { IsGraph nodes.now }
    requires roots { All (λ r. r < length nodes.now) roots.now }
    requires long { length marks.old.items ≡ length nodes.now }
    requires clear { AreClear marks.old.items }
    ensures { IfOk result (λ found. IsFound nodes.now roots.now marks.new.items found.items) }
{
    let mut waiting = Vec::new(alloc);
    let mut found = Vec::new(alloc);
    mark_all(marks, &mut waiting, roots)?;
    while let Some(u) = waiting.pop() {
        mark_all(marks, &mut waiting, needs_at(nodes, u))?;
        found.push(u)?;
    }
    Ok(found)
}

/// Clears the marks of the nodes of a list.
fn clear(marks: &mut [bool], list: &[usize])
    requires within { All (λ v. v < length marks.old) list.now }
    requires all { Clearing list.now 0 marks.old marks.old }
    ensures long { length marks.new ≡ length marks.old }
    ensures clear { AreClear marks.new }
{
    for v in list {
        marks[*v] = false;
    }
}

/// Returns the nodes that the roots reach. The borrowed marks are clear before and after the call.
pub fn reached_from(
    alloc: Global,
    nodes: &[Node],
    marks: &mut Vec<bool>,
    roots: &[usize],
) -> Result<Vec<usize>, AllocError>
    requires graph { IsGraph nodes.now }
    requires roots { All (λ r. r < length nodes.now) roots.now }
    requires long { length marks.old.items ≡ length nodes.now }
    requires clear { AreClear marks.old.items }
    ensures reached { IfOk result (λ found. AreReached nodes.now roots.now found.items) }
    ensures long { OnOk result (length marks.new.items ≡ length nodes.now) }
    ensures clear { OnOk result (AreClear marks.new.items) }
{
    let found = found_from(alloc, nodes, marks, roots)?;
    clear(marks, &found);
    Ok(found)
}
