//! The order of the roots and of all nodes that the roots reach.

ghost use Rattle.std.specs.Prelude.{◌≡◌, ◌≢◌, ◌↔◌, ◌⊎◌, ℕ, ◌<◌, ◌≤◌, IfOk, IfErr, OnOk, All, AllPairs, Contains, map, length, slice_index, Some};
ghost use Rattle.std.specs.List.Sorted.{IsStrictlyIncreasing};
ghost use Rattle.pb_graph.specs.Graph.{IsGraph, IsReached, Reaches, needs_at};
ghost use Rattle.pb_graph.specs.Order.{IsOrder, IsWhy};
ghost use Rattle.pb_graph.specs.Working.{AreRising, node_of, AreClear, AreRanked, rank_node, AreByKey, IsCrowded, AreIndicesBy, AreSteps, AreSurveyed, IsOrdered, IsPlaced, IndicesTell};
ghost use Rattle.pb_graph.specs.declared.graph.OrderFault.TheVariants.{OutOfMemory, TooMany};

use crate::graph::{Node, OrderFault, Step};
use crate::levels::{Extent, extents_of, levels_of, nodes_in_circles, zeros};
use crate::ranks::{Rank, rank_nodes, sort_once};
use crate::reach::{needs_at, no_marks, reached_from};
use pb_data::{Items, TryCopy};
use std::alloc::{AllocError, Global};

/// Returns the index of each node in the order.
fn indices_by_node(alloc: Global, nodes: &[Node], ranks: &[Rank]) -> Result<Vec<usize>, AllocError>
    requires within { All (λ r. r.node < length nodes.now) ranks.now }
    requires apart { AllPairs (λ a b. a.node ≢ b.node) ranks.now }
    ensures { IfOk result
        (λ indices. IndicesTell nodes.now ranks.now (length ranks.now) indices.items) }
{
    let mut indices = zeros(alloc, nodes.len())?;
    for (index, rank) in ranks.iter().enumerate() {
        indices[rank.node] = index;
    }
    Ok(indices)
}

/// Returns the indices of a list's nodes, ascending, without repeats.
fn indices_of(alloc: Global, indices: &[usize], list: &[usize]) -> Result<Items<usize>, AllocError>
    requires { All (λ v. v < length indices.now) list.now }
    ensures { IfOk result (AreIndicesBy indices.now list.now) }
{
    let mut found = Vec::new(alloc);
    for node in list {
        found.push(indices[*node])?;
    }
    sort_once(&mut found);
    Ok(Items::from_vec(found))
}

/// Returns a node of the order, with the indices of the nodes that it needs and reaches.
fn step_of(
    alloc: Global,
    nodes: &[Node],
    marks: &mut Vec<bool>,
    indices: &[usize],
    rank: &Rank,
) -> Result<Step, AllocError>
    requires graph { IsGraph nodes.now }
    requires node { rank.now.node < length nodes.now }
    requires indices { length indices.now ≡ length nodes.now }
    requires long { length marks.old.items ≡ length nodes.now }
    requires clear { AreClear marks.old.items }
    ensures step { IfOk result (IsPlaced nodes.now indices.now rank.now) }
    ensures long { OnOk result (length marks.new.items ≡ length nodes.now) }
    ensures clear { OnOk result (AreClear marks.new.items) }
{
    let reached = reached_from(alloc, nodes, marks, needs_at(nodes, rank.node))?;
    let needs = indices_of(alloc, indices, needs_at(nodes, rank.node))?;
    let reaches = indices_of(alloc, indices, &reached)?;
    let key = rank.key.copy(alloc)?;
    Ok(Step {
        node: rank.node,
        key,
        level: rank.level,
        needs,
        reaches,
    })
}

/// Returns all nodes of the order.
fn steps_of(
    alloc: Global,
    nodes: &[Node],
    marks: &mut Vec<bool>,
    ranks: &[Rank],
) -> Result<Vec<Step>, AllocError>
    requires graph { IsGraph nodes.now }
    requires within { All (λ r. r.node < length nodes.now) ranks.now }
    requires apart { AllPairs (λ a b. a.node ≢ b.node) ranks.now }
    requires long { length marks.old.items ≡ length nodes.now }
    requires clear { AreClear marks.old.items }
    ensures { IfOk result (λ plan. AreSteps nodes.now ranks.now plan.items) }
{
    let indices = indices_by_node(alloc, nodes, ranks)?;
    let mut plan = Vec::new(alloc);
    for rank in ranks {
        let item = step_of(alloc, nodes, marks, &indices, rank)?;
        plan.push(item)?;
    }
    Ok(plan)
}

/// Returns the nodes of a list, sorted by the bytes of their keys, without repeats.
fn by_key(alloc: Global, nodes: &[Node], list: &[usize]) -> Result<Items<usize>, AllocError>
    requires graph { IsGraph nodes.now }
    requires list { All (λ v. v < length nodes.now) list.now }
    ensures { IfOk result (AreByKey nodes.now list.now) }
{
    let levels = zeros(alloc, nodes.len())?;
    let ranks = rank_nodes(alloc, nodes, &levels, list)?;
    let found = ranked_nodes(alloc, &ranks)?;
    Ok(Items::from_vec(found))
}

/// Returns the nodes of some ranks.
fn ranked_nodes(alloc: Global, ranks: &[Rank]) -> Result<Vec<usize>, AllocError>
    ensures { IfOk result (λ found. found.items ≡ map rank_node ranks.now) }
{
    ranks.iter().map(|r| r.node).collect(alloc)
}

/// Returns the nodes of some extents.
fn extent_nodes(alloc: Global, extents: &[Extent]) -> Result<Vec<usize>, AllocError>
    ensures { IfOk result (λ found. found.items ≡ map node_of extents.now) }
{
    extents.iter().map(|e| e.node).collect(alloc)
}

/// Returns how many nodes each node reaches, for all nodes that the roots reach. The least number
/// comes first.
fn survey(
    alloc: Global,
    nodes: &[Node],
    marks: &mut Vec<bool>,
    roots: &[usize],
) -> Result<Vec<Extent>, AllocError>
    requires graph { IsGraph nodes.now }
    requires roots { All (λ r. r < length nodes.now) roots.now }
    requires long { length marks.old.items ≡ length nodes.now }
    requires clear { AreClear marks.old.items }
    ensures survey { IfOk result (λ extents. AreSurveyed nodes.now roots.now extents.items) }
    ensures long { OnOk result (length marks.new.items ≡ length nodes.now) }
    ensures clear { OnOk result (AreClear marks.new.items) }
{
    let reached = reached_from(alloc, nodes, marks, roots)?;
    let mut extents = extents_of(alloc, nodes, marks, &reached)?;
    extents.sort_by_key(|e| e.count)?;
    Ok(extents)
}

/// Returns the nodes of a list, sorted by the bytes of their keys, without repeats. The call fails
/// if there are more nodes than allowed.
fn within(
    alloc: Global,
    nodes: &[Node],
    list: &[usize],
    most: usize,
) -> Result<Items<usize>, OrderFault>
    requires graph { IsGraph nodes.now }
    requires list { All (λ v. v < length nodes.now) list.now }
    ensures listed { IfOk result (AreByKey nodes.now list.now) }
    ensures few { IfOk result (λ found. length found ≤ most) }
    ensures crowd { IfErr result
        (λ e. (e ≡ OutOfMemory) ⊎ ((e ≡ TooMany) × IsCrowded nodes.now list.now most)) }
{
    let found = by_key(alloc, nodes, list)?;
    if found.len() > most {
        return Err(OrderFault::TooMany);
    }
    Ok(found)
}

/// Returns the order of some nodes. None of these nodes reaches itself.
fn order_nodes(
    alloc: Global,
    nodes: &[Node],
    marks: &mut Vec<bool>,
    extents: &[Extent],
    most: usize,
) -> Result<Vec<Step>, OrderFault>
    requires graph { IsGraph nodes.now }
    requires extents { AreRising nodes.now extents.now }
    requires within { All (λ e. e.node < length nodes.now) extents.now }
    requires long { length marks.old.items ≡ length nodes.now }
    requires clear { AreClear marks.old.items }
    ensures ordered { IfOk result
        (λ plan. IsOrdered nodes.now (map node_of extents.now) plan.items) }
    ensures few { IfOk result (λ plan. length plan.items ≤ most) }
    ensures crowd { IfErr result (λ e. (e ≡ OutOfMemory)
        ⊎ ((e ≡ TooMany) × IsCrowded nodes.now (map node_of extents.now) most)) }
{
    let reached = extent_nodes(alloc, extents)?;
    let list = match within(alloc, nodes, &reached, most) {
        Err(fault) => return Err(fault),
        Ok(list) => list,
    };
    let levels = levels_of(alloc, nodes, extents)?;
    let ranks = rank_nodes(alloc, nodes, &levels, list.as_slice())?;
    let plan = steps_of(alloc, nodes, marks, &ranks)?;
    Ok(plan)
}

/// Returns the order of the roots and of the nodes that the roots reach. The nodes are sorted by
/// level, and then by the bytes of their keys.
///
/// Errors: the first of these that occurs, or `OutOfMemory` at any time.
///
/// - `Circle`, if some of these nodes reach themselves.
/// - `TooMany`, if there are more than `most` nodes.
pub fn order(
    alloc: Global,
    nodes: &[Node],
    roots: &[usize],
    most: usize,
) -> Result<Items<Step>, OrderFault>
    requires graph { IsGraph nodes.now }
    requires roots { All (λ r. r < length nodes.now) roots.now }
    ensures order { IfOk result (IsOrder nodes.now roots.now) }
    ensures few { IfOk result (λ steps. length steps ≤ most) }
    ensures why { IfErr result (IsWhy nodes.now roots.now most) }
{
    let mut marks = no_marks(alloc, nodes.len())?;
    let extents = survey(alloc, nodes, &mut marks, roots)?;
    let circle = nodes_in_circles(alloc, &extents)?;
    if !circle.is_empty() {
        let nodes = by_key(alloc, nodes, &circle)?;
        return Err(OrderFault::Circle(nodes));
    }
    let plan = match order_nodes(alloc, nodes, &mut marks, &extents, most) {
        Err(fault) => return Err(fault),
        Ok(plan) => plan,
    };
    Ok(Items::from_vec(plan))
}
