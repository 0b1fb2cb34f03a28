//! Sorts nodes by level and then by key.

ghost use Rattle.std.specs.Prelude.{◌≡◌, ◌≤◌, ℕ, ◌<◌, IfOk, OnOk, All, Any, Contains, length, map, true, IsPermutation};
ghost use Rattle.std.specs.List.Sorted.{IsStrictlySortedBy};
ghost use Rattle.pb_graph.specs.Graph.{IsGraph, key_at};
ghost use Rattle.pb_graph.specs.Working.{AreRanked, IsRank, rank_node};

use crate::graph::Node;
use pb_data::{Text, TryCopy};
use std::alloc::{AllocError, Global};

/// A node's position in the order: by level, and then by the bytes of the key.
#[derive(Drop, PartialEq, Eq, PartialOrd, Ord)]
pub struct Rank {
    pub level: usize,
    pub key: Text,
    pub node: usize,
}

/// Sorts items and removes repeats.
pub fn sort_once<T: Ord + Drop>(items: &mut Vec<T>)
    ensures rises { IsStrictlySortedBy T.cmp items.new.items }
    ensures keeps { (x : T) → Contains items.old.items x
        → Any (λ y. T.eq x y ≡ true) items.new.items }
    ensures adds_none { (x : T) → Contains items.new.items x → Contains items.old.items x }
    ensures few { length items.new.items ≤ length items.old.items }
{
    items.sort_unstable();
    items.dedup();
}

/// Returns a node's rank.
fn rank_of(alloc: Global, nodes: &[Node], levels: &[usize], node: usize) -> Result<Rank, AllocError>
    requires node { node < length nodes.now }
    requires levels { length levels.now ≡ length nodes.now }
    ensures node { IfOk result (λ r. r.node ≡ node) }
    ensures rank { IfOk result (IsRank nodes.now levels.now) }
{
    let key = nodes[node].key.copy(alloc)?;
    Ok(Rank {
        level: levels[node],
        key,
        node,
    })
}

/// Returns the ranks of the nodes of a list.
fn ranks_of(
    alloc: Global,
    nodes: &[Node],
    levels: &[usize],
    list: &[usize],
) -> Result<Vec<Rank>, AllocError>
    requires list { All (λ v. v < length nodes.now) list.now }
    requires levels { length levels.now ≡ length nodes.now }
    ensures nodes { IfOk result (λ ranks. map rank_node ranks.items ≡ list.now) }
    ensures ranks { IfOk result (λ ranks. All (IsRank nodes.now levels.now) ranks.items) }
{
    let mut ranks = Vec::new(alloc);
    for node in list {
        let rank = rank_of(alloc, nodes, levels, *node)?;
        ranks.push(rank)?;
    }
    Ok(ranks)
}

/// Returns the ranks of the nodes of a list, in order and without repeats.
pub fn rank_nodes(
    alloc: Global,
    nodes: &[Node],
    levels: &[usize],
    list: &[usize],
) -> Result<Vec<Rank>, AllocError>
    requires graph { IsGraph nodes.now }
    requires list { All (λ v. v < length nodes.now) list.now }
    requires levels { length levels.now ≡ length nodes.now }
    ensures { IfOk result (λ ranks. AreRanked nodes.now list.now levels.now ranks.items) }
{
    let mut ranks = ranks_of(alloc, nodes, levels, list)?;
    sort_once(&mut ranks);
    Ok(ranks)
}
