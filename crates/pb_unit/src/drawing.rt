//! The graph of the units that a plan may have.

ghost use Rattle.std.specs.Prelude.{◌≡◌, ◌<◌, ◌≤◌, ℕ, IfOk, All, Contains, map, length};
ghost use Rattle.pb_graph.specs.Graph.{IsGraph};
ghost use Rattle.pb_unit.specs.Drawing.{node_of, IsDrawn};

use crate::candidates::candidates;
use crate::needed::needed_by;
use crate::roots::roots;
use crate::unit::Unit;
use pb_data::Items;
use pb_feature_types::Features;
use pb_graph::Node;
use pb_workspace_types::{SelectedWorkspace, SettledWorkspace};
use std::alloc::{AllocError, Global};

/// The units that a plan may have, as the nodes of a graph, and the nodes that are roots.
#[derive(Drop)]
pub(crate) struct Drawing {
    /// The units, by their numbers.
    pub(crate) units: Items<Unit>,
    /// The numbers of the units that each unit needs.
    pub(crate) nodes: Items<Node>,
    /// The numbers of the roots.
    pub(crate) roots: Items<usize>,
}

/// Returns the node of a unit.
fn node_of(
    alloc: Global,
    workspace: &SettledWorkspace,
    features: &Features,
    unit: &Unit,
) -> Result<Node, AllocError>
    requires { unit.now.package < 256 }
    ensures { IfOk result (λ node. node ≡ node_of workspace.now features.now unit.now) }
{
    let key = unit.key(alloc, workspace.get())?;
    let needs = needed_by(alloc, workspace, features, unit)?;
    Ok(Node {
        key,
        needs: Items::from_vec(needs),
    })
}

/// Returns the nodes of units.
fn nodes_of(
    alloc: Global,
    workspace: &SettledWorkspace,
    features: &Features,
    units: &[Unit],
) -> Result<Vec<Node>, AllocError>
    requires { All (λ u. u.package < 256) units.now }
    ensures { IfOk result (λ nodes. nodes.items
        ≡ map (node_of workspace.now features.now) units.now) }
{
    let mut nodes = Vec::new(alloc);
    for unit in units {
        nodes.push(node_of(alloc, workspace, features, unit)?)?;
    }
    Ok(nodes)
}

/// Returns the graph of the units that a plan may have.
pub(crate) fn draw_graph(
    alloc: Global,
    selected: &SelectedWorkspace<'_>,
    features: &Features,
) -> Result<Drawing, AllocError>
    ensures { IfOk result (λ d.
        IsDrawn selected.now.workspace features.now selected.now.selection d.units d.nodes
        d.roots) }
{
    let workspace = selected.workspace();
    let units = candidates(alloc, workspace.get(), features, selected.selection())?;
    let nodes = nodes_of(alloc, workspace, features, units.as_slice())?;
    let roots = roots(alloc, selected, units.as_slice())?;
    Ok(Drawing {
        units: Items::from_vec(units),
        nodes: Items::from_vec(nodes),
        roots: Items::from_vec(roots),
    })
}
