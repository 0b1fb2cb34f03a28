//! Notes on packages that dependencies name although the packages have no library.

ghost use Rattle.std.specs.Prelude.{◌≡◌, ◌==◌, length, IfOk, string_bytes};
ghost use Rattle.pb_tool_program.specs.Libraries.{NotesOf};
ghost use Rattle.pb_tool_sentences.specs.Libraries.{notes_of};

use pb_build::BuildPlan;
use pb_build_result::BuildFault;
use pb_place_types::{Out, write_all};
use pb_tool_sentences::notes_of;
use std::alloc::{AllocError, Global};

/// Returns whether every package named by a dependency of the plan has a library.
fn has_libraries(plan: &BuildPlan) -> bool
    ensures { result ≡ (length plan.now.project.plan.without_library == 0) }
{
    plan.project.without_library().is_empty()
}

/// Returns a line for each package that a dependency of a plan names although the package has no
/// library.
fn plan_notes(alloc: Global, plan: &BuildPlan) -> Result<String, AllocError>
    ensures { IfOk result (λ notes. string_bytes notes
        ≡ notes_of plan.now.project.workspace.packages plan.now.project.plan.without_library) }
{
    let packages = plan.project.get().workspace.packages.as_slice();
    notes_of(alloc, packages, plan.project.without_library())
}

/// Writes a line for each package that a dependency of a build's plan names although the package
/// has no library. If there is no such package, writes nothing. If there is no plan, writes
/// nothing, since the build reports why. If memory runs out, writes a line that needs no memory
/// instead.
pub(crate) fn note<E: Out>(alloc: Global, err: &mut E, plan: &Result<BuildPlan, BuildFault>)
    ensures { NotesOf plan.now (E.heard err.old) (E.heard err.new) }
{
    let plan = match plan {
        Ok(plan) => plan,
        Err(_) => return,
    };
    if has_libraries(plan) {
        return;
    }
    match plan_notes(alloc, plan) {
        Ok(notes) => write_all(err, notes.as_bytes()),
        Err(_) => write_all(
            err,
            b"note: there is no memory to show the packages without a library\n",
        ),
    };
}
