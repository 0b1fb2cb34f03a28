//! What each kind of unit needs, as numbers of units.

ghost use Rattle.std.specs.Prelude.{◌≡◌, ◌<◌, IfOk, map, length};
ghost use Rattle.pb_unit.specs.declared.unit.What.TheVariants.{Lib, Bin, Script, Run};
ghost use Rattle.pb_unit.specs.Units.{needs, needs_of};
ghost use Rattle.pb_unit.specs.Drawing.{number};

use crate::dependencies::{Need, add_needed, add_own_library, add_own_run, script_number};
use crate::unit::{Unit, What};
use pb_feature_types::Features;
use pb_workspace_types::{SettledWorkspace, Side};
use std::alloc::{AllocError, Global};

/// Returns what a library needs.
fn by_library(
    alloc: Global,
    workspace: &SettledWorkspace,
    features: &Features,
    owner: usize,
    side: Side,
) -> Result<Vec<usize>, AllocError>
    requires { owner < 256 }
    ensures { IfOk result (λ numbers. numbers.items
        ≡ map number (needs_of workspace.now features.now owner side Lib)) }
{
    let mut numbers = Vec::new(alloc);
    add_needed(&mut numbers, workspace, features, owner, side, Need::Lib)?;
    add_own_run(&mut numbers, workspace, owner, side)?;
    Ok(numbers)
}

/// Returns what a binary needs.
fn by_binary(
    alloc: Global,
    workspace: &SettledWorkspace,
    features: &Features,
    owner: usize,
    side: Side,
    name: &str,
) -> Result<Vec<usize>, AllocError>
    requires { owner < 256 }
    ensures { IfOk result (λ numbers. numbers.items
        ≡ map number (needs_of workspace.now features.now owner side (Bin name.now))) }
{
    let mut numbers = Vec::new(alloc);
    add_own_library(&mut numbers, workspace, owner, side)?;
    add_needed(&mut numbers, workspace, features, owner, side, Need::Lib)?;
    add_own_run(&mut numbers, workspace, owner, side)?;
    Ok(numbers)
}

/// Returns what a script needs.
fn by_script(
    alloc: Global,
    workspace: &SettledWorkspace,
    features: &Features,
    owner: usize,
    side: Side,
) -> Result<Vec<usize>, AllocError>
    ensures { IfOk result (λ numbers. numbers.items
        ≡ map number (needs_of workspace.now features.now owner side Script)) }
{
    let mut numbers = Vec::new(alloc);
    add_needed(&mut numbers, workspace, features, owner, side, Need::Tool)?;
    Ok(numbers)
}

/// Returns what a run needs.
fn by_run(
    alloc: Global,
    workspace: &SettledWorkspace,
    features: &Features,
    owner: usize,
    side: Side,
) -> Result<Vec<usize>, AllocError>
    requires { owner < 256 }
    ensures { IfOk result (λ numbers. numbers.items
        ≡ map number (needs_of workspace.now features.now owner side Run)) }
{
    let mut numbers = Vec::new(alloc);
    numbers.push(script_number(owner, side))?;
    add_needed(&mut numbers, workspace, features, owner, side, Need::Run)?;
    Ok(numbers)
}

/// Returns what a unit needs: its own library, other libraries, tools and runs. Which of these a
/// unit needs depends on what the unit makes.
pub(crate) fn needed_by(
    alloc: Global,
    workspace: &SettledWorkspace,
    features: &Features,
    unit: &Unit,
) -> Result<Vec<usize>, AllocError>
    requires { unit.now.package < 256 }
    ensures { IfOk result (λ numbers. numbers.items
        ≡ map number (needs workspace.now features.now unit.now)) }
{
    match &unit.what {
        What::Lib => by_library(alloc, workspace, features, unit.package, unit.side),
        What::Bin(name) => by_binary(
            alloc,
            workspace,
            features,
            unit.package,
            unit.side,
            name.as_str(),
        ),
        What::Script => by_script(alloc, workspace, features, unit.package, unit.side),
        What::Run => by_run(alloc, workspace, features, unit.package, unit.side),
    }
}
