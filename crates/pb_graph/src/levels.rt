//! How many nodes each node reaches, and the levels of the nodes.

ghost use Rattle.std.specs.Prelude.{◌≡◌, ◌⊎◌, ℕ, ◌<◌, ◌^◌, IfOk, OnOk, All, AllPairs, Contains, map, filter, length, false, slice_index, replicate};
ghost use Rattle.pb_graph.specs.Graph.{IsGraph, needs_at, above};
ghost use Rattle.pb_graph.specs.Working.{AreClear, AreLevels, AreRising, IsExtent, node_of};

use crate::graph::Node;
use crate::reach::{needs_at, reached_from};
use std::alloc::{AllocError, Global};

/// A node, how many nodes it reaches, and whether it reaches itself.
#[derive(Clone, Copy)]
pub struct Extent {
    pub node: usize,
    /// The number of nodes that the node reaches.
    pub count: usize,
    /// Whether the node reaches itself.
    pub turns: bool,
}

/// Returns how many nodes a node reaches, and whether the node reaches itself.
fn extent_of(
    alloc: Global,
    nodes: &[Node],
    marks: &mut Vec<bool>,
    node: usize,
) -> Result<Extent, AllocError>
    requires graph { IsGraph nodes.now }
    requires node { node < length nodes.now }
    requires long { length marks.old.items ≡ length nodes.now }
    requires clear { AreClear marks.old.items }
    ensures node { IfOk result (λ e. e.node ≡ node) }
    ensures extent { IfOk result (IsExtent nodes.now) }
    ensures long { OnOk result (length marks.new.items ≡ length nodes.now) }
    ensures clear { OnOk result (AreClear marks.new.items) }
{
    let reached = reached_from(alloc, nodes, marks, needs_at(nodes, node))?;
    Ok(Extent {
        node,
        count: reached.len(),
        turns: reached.contains(&node),
    })
}

/// Returns, for each node of a list, how many nodes it reaches, and whether it reaches itself.
pub fn extents_of(
    alloc: Global,
    nodes: &[Node],
    marks: &mut Vec<bool>,
    list: &[usize],
) -> Result<Vec<Extent>, AllocError>
    requires graph { IsGraph nodes.now }
    requires list { All (λ v. v < length nodes.now) list.now }
    requires long { length marks.old.items ≡ length nodes.now }
    requires clear { AreClear marks.old.items }
    ensures nodes { IfOk result (λ extents. map node_of extents.items ≡ list.now) }
    ensures extents { IfOk result (λ extents. All (IsExtent nodes.now) extents.items) }
    ensures long { OnOk result (length marks.new.items ≡ length nodes.now) }
    ensures clear { OnOk result (AreClear marks.new.items) }
{
    let mut extents = Vec::new(alloc);
    for node in list {
        let extent = extent_of(alloc, nodes, marks, *node)?;
        extents.push(extent)?;
    }
    Ok(extents)
}

/// Returns the nodes that reach themselves.
pub fn nodes_in_circles(alloc: Global, extents: &[Extent]) -> Result<Vec<usize>, AllocError>
    ensures { IfOk result (λ nodes. nodes.items ≡ map node_of (filter (λ e. e.turns) extents.now)) }
{
    extents
        .iter()
        .filter(|e| e.turns)
        .map(|e| e.node)
        .collect(alloc)
}

/// Returns one more than the greatest level of the needed nodes, or 0 if there are no needed nodes.
fn level_above(levels: &[usize], needs: &[usize]) -> usize
    requires needs { All (λ v. v < length levels.now) needs.now }
    requires small { (v : ℕ) → slice_index levels.now v < 2 ^ 63 }
    ensures { result ≡ above (map (slice_index levels.now) needs.now) }
{
    let mut level = 0usize;
    for need in needs {
        level = level.max(levels[*need] + 1);
    }
    level
}

/// Returns the levels of nodes. The nodes are sorted by how many nodes each of them reaches.
/// Therefore the nodes that a node needs come before that node.
pub fn levels_of(
    alloc: Global,
    nodes: &[Node],
    extents: &[Extent],
) -> Result<Vec<usize>, AllocError>
    requires graph { IsGraph nodes.now }
    requires extents { AreRising nodes.now extents.now }
    requires within { All (λ e. e.node < length nodes.now) extents.now }
    ensures { IfOk result (λ levels. AreLevels nodes.now (map node_of extents.now) levels.items) }
{
    let mut levels = zeros(alloc, nodes.len())?;
    for extent in extents {
        let level = level_above(&levels, needs_at(nodes, extent.node));
        levels[extent.node] = level;
    }
    Ok(levels)
}

/// Returns levels that are all 0.
pub fn zeros(alloc: Global, count: usize) -> Result<Vec<usize>, AllocError>
    ensures { IfOk result (λ levels. levels.items ≡ replicate count 0) }
{
    vec![in alloc; 0; count]
}
