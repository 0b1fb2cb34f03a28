//! The units that a build must make.

ghost use Rattle.std.specs.Prelude.{◌≡◌, ◌↔◌, ℕ, ◌<◌, true, IfOk, All, Contains, length};
ghost use Rattle.pb_graph.specs.Closure.{is_on};
ghost use Rattle.pb_graph.specs.Placed.{placed};
ghost use Rattle.pb_unit.specs.Drawing.{is_target, is_root, root_at, AreRoots};

use crate::candidates::asks_libraries;
use crate::dependencies::has_library;
use crate::unit::{Unit, What};
use pb_graph::derive;
use pb_workspace_types::{SelectedWorkspace, SettledWorkspace, Side};
use std::alloc::{AllocError, Global};

/// Returns whether a side is the target's side.
fn is_target(side: Side) -> bool
    ensures { result ≡ is_target side }
{
    match side {
        Side::Target => true,
        Side::Host => false,
    }
}

/// Returns a mark for each package: whether the package is selected.
fn selected_marks(alloc: Global, count: usize, indices: &[usize]) -> Result<Vec<bool>, AllocError>
    requires { All (λ p. p < count) indices.now }
    ensures { IfOk result (λ marks. (p : ℕ) →
        (is_on marks.items p ≡ true) ↔ Contains indices.now p) }
{
    let marks = derive(alloc, count, indices, &[])?;
    Ok(marks)
}

/// Returns whether an index is marked.
fn is_marked(marks: &[bool], index: usize) -> bool
    ensures { result ≡ is_on marks.now index }
{
    match marks.get(index) {
        Some(mark) => *mark,
        None => false,
    }
}

/// Returns whether a candidate is a root.
fn is_root(workspace: &SettledWorkspace, asked: bool, marks: &[bool], unit: &Unit) -> bool
    ensures { result ≡ is_root workspace.now asked marks.now unit.now }
{
    match unit.what {
        What::Lib => {
            asked
                && is_target(unit.side)
                && is_marked(marks, unit.package)
                && has_library(workspace.get(), unit.package)
        }
        What::Bin(_) => true,
        What::Script => false,
        What::Run => false,
    }
}

/// Returns the numbers of the candidates that are roots, given the marks.
fn roots_marked(
    alloc: Global,
    workspace: &SettledWorkspace,
    asked: bool,
    marks: &[bool],
    units: &[Unit],
) -> Result<Vec<usize>, AllocError>
    ensures { IfOk result (λ roots. roots.items
        ≡ placed (root_at workspace.now asked marks.now) 0 units.now) }
{
    let mut roots = Vec::new(alloc);
    for index in 0..units.len() {
        if is_root(workspace, asked, marks, &units[index]) {
            roots.push(index)?;
        }
    }
    Ok(roots)
}

/// Returns the numbers of the candidates that are roots.
pub(crate) fn roots(
    alloc: Global,
    selected: &SelectedWorkspace<'_>,
    units: &[Unit],
) -> Result<Vec<usize>, AllocError>
    ensures { IfOk result (λ roots.
        AreRoots selected.now.workspace selected.now.selection units.now roots.items) }
{
    let workspace = selected.workspace();
    let selection = selected.selection();
    let count = workspace.get().packages.len();
    let marks = selected_marks(alloc, count, selection.packages.as_slice())?;
    let asked = asks_libraries(selection);
    let roots = roots_marked(alloc, workspace, asked, marks.as_slice(), units)?;
    Ok(roots)
}
