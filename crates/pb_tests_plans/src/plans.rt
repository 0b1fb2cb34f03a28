//! Plans, against a table of plans written by hand.

use crate::asking::{assert_cases, options_of, workspace_of};
use crate::cases::CASES;
use crate::script_cases::SCRIPT_CASES;
use crate::show::{put_fault, put_plan, put_texts};
use pb_data::Text;
use pb_feature::resolve;
use pb_tests_files::{Answers, Case, Shown, Trial, put_answers};
use pb_unit::{Plan, PlanFault, Unit, What};
use pb_workspace::selected;
use pb_workspace_types::{Options, SelectedWorkspace, SettledWorkspace, Side, Workspace};
use std::alloc::{AllocError, Global};
use std::test::Fail;

/// Returns the profile that the words request, at their end.
fn profile_in(words: &str) -> &str {
    match words.split_once("@") {
        Some((_, profile)) => profile,
        None => "dev",
    }
}

/// A root manifest in `/w`. Each folder in `/w` that has a manifest is a member.
const ROOT: &str = "@ /w/Cargo.toml\n[workspace]\nmembers = [\"*\"]\n";

/// Returns the plan of a selection.
fn selection_plan(
    alloc: Global,
    chosen: &SelectedWorkspace<'_>,
    words: &str,
) -> Result<Result<Plan, PlanFault>, Fail> {
    let features = resolve(alloc, chosen)?;
    let plan = Plan::plan(alloc, chosen, &features, profile_in(words));
    drop(features);
    Ok(plan)
}

/// Returns the plan of what options select of a workspace.
fn plan_with(
    alloc: Global,
    workspace: &SettledWorkspace,
    options: &Options,
    words: &str,
) -> Result<Result<Plan, PlanFault>, Fail> {
    let chosen = selected(alloc, workspace, options)?;
    let plan = selection_plan(alloc, &chosen, words);
    drop(chosen);
    plan
}

/// Returns the plan of a workspace.
fn plan_of(
    alloc: Global,
    workspace: &SettledWorkspace,
    words: &str,
) -> Result<Result<Plan, PlanFault>, Fail> {
    let options = options_of(alloc, words, " ")?;
    let plan = plan_with(alloc, workspace, &options, words);
    drop(options);
    plan
}

/// Puts what an answer is shown as.
fn put_answer(out: &mut Shown, answer: &Result<Plan, PlanFault>, words: &str) {
    match answer {
        Err(fault) => put_fault(out, fault),
        Ok(plan) => {
            if words.contains("!missing") {
                put_texts(out, plan.without_library());
            } else {
                put_plan(out, plan, words.contains("!whole"));
            }
        }
    }
}

/// The plans of a workspace, by words for options.
#[derive(Drop)]
struct PlansOf<'a> {
    workspace: &'a SettledWorkspace,
}

impl Answers for PlansOf<'_> {
    fn put_answer(&self, alloc: Global, question: &str, out: &mut Shown) -> Result<(), Fail> {
        let answer = plan_of(alloc, self.workspace, question)?;
        put_answer(out, &answer, question);
        drop(answer);
        Ok(())
    }
}

/// Cases of workspaces, with questions about their plans.
struct PlanCases {}

impl Trial for PlanCases {
    fn put_result(&self, alloc: Global, case: &Case<'_>, out: &mut Shown) -> Result<(), Fail> {
        let workspace = workspace_of(alloc, ROOT, case.given)?;
        let answers = PlansOf {
            workspace: &workspace,
        };
        let put = put_answers(alloc, &answers, case.wanted, out);
        drop(workspace);
        put
    }
}

/// Returns these files, and after them the files of the package `a` with this number of binaries.
fn many_binaries(alloc: Global, first: &str, count: u64) -> Result<String, AllocError> {
    let mut files = Shown::new(alloc);
    files.put(&[first]);
    for number in 0..count {
        files.put(&["@ /w/a/src/bin/b"]);
        files.put_number(number);
        files.put(&[".rs\n"]);
    }
    files.whole()
}

/// Returns whether a plan has this number of units; none for too many.
fn has_units(answer: &Result<Plan, PlanFault>, wanted: Option<usize>) -> bool {
    match answer {
        Ok(plan) => wanted == Some(plan.units().len()),
        Err(PlanFault::TooManyUnits) => wanted.is_none(),
        Err(_) => false,
    }
}

/// Returns whether the plan of the package of a workspace has this number of units.
fn plans_units(
    alloc: Global,
    workspace: &SettledWorkspace,
    wanted: Option<usize>,
) -> Result<bool, Fail> {
    let answer = plan_of(alloc, workspace, "a")?;
    let has_units = has_units(&answer, wanted);
    drop(answer);
    Ok(has_units)
}

/// One package.
const ALONE: &str = "@ /w/a/Cargo.toml\npackage.name = \"a\"\n";

/// Returns whether the plan of a package with this number of binaries has this number of units.
fn binaries_give(alloc: Global, count: u64, wanted: Option<usize>) -> Result<bool, Fail> {
    let files = many_binaries(alloc, ALONE, count)?;
    let workspace = workspace_of(alloc, ROOT, files.as_str())?;
    let plans_units = plans_units(alloc, &workspace, wanted);
    drop(workspace);
    plans_units
}

/// The same package with a library, and another package. A feature makes a cycle of the two.
const CIRCLE: &str = r#"@ /w/a/Cargo.toml
package.name = "a"
[dependencies]
b = { path = "../b" }
[features]
circle = ["b/a"]
@ /w/a/src/lib.rs
@ /w/b/Cargo.toml
package.name = "b"
[dependencies]
a = { path = "../a", optional = true }
@ /w/b/src/lib.rs
"#;

/// Requests of these packages if there are too many units, without the cycle and with it. The cycle
/// is reported first.
const CIRCLE_QUESTIONS: &str = r#"a = TooManyUnits
a f:circle = Cycle a b
"#;

/// Returns whether the plans of the cycle, with this number of binaries, are these.
fn are_circles_found(alloc: Global, count: u64) -> Result<bool, Fail> {
    let files = many_binaries(alloc, CIRCLE, count)?;
    let workspace = workspace_of(alloc, ROOT, files.as_str())?;
    let answers = PlansOf {
        workspace: &workspace,
    };
    let mut out = Shown::new(alloc);
    let put = put_answers(alloc, &answers, CIRCLE_QUESTIONS, &mut out);
    drop(workspace);
    put?;
    Ok(out.says(CIRCLE_QUESTIONS))
}

/// A package with a script, and one that it needs on both sides.
const BOTH_SIDES: &str = r#"@ /w/a/Cargo.toml
package.name = "a"
[dependencies]
b = { path = "../b" }
[build-dependencies]
b = { path = "../b" }
@ /w/a/src/lib.rs
@ /w/a/build.rs
@ /w/b/Cargo.toml
package.name = "b"
@ /w/b/src/lib.rs
"#;

/// What is shown of it.
const FOLDERS_AND_LEVELS: &str = r#"/w/target/release/b.host.lib Zero
/w/target/release/b.target.lib Three
/w/target/release/a.target.script Zero
/w/target/release/a.target.run Three
/w/target/release/a.target.lib Three
"#;

/// Returns whether these are the folders and levels of a plan, and whether an index past its five
/// units has no unit.
fn has_folders(alloc: Global, plan: &Plan) -> bool {
    let mut shown = Shown::new(alloc);
    for planned in plan.units() {
        shown.put(&[planned.out.as_str(), " "]);
        shown.put_value(&planned.settings.opt_level());
        shown.put(&["\n"]);
    }
    shown.says(FOLDERS_AND_LEVELS)
        && plan.level(5) == 0
        && plan.needs(5).is_empty()
        && plan.reaches(5).is_empty()
}

/// Returns whether a plan was made that has these folders and levels.
fn are_folders(alloc: Global, answer: &Result<Plan, PlanFault>) -> bool {
    match answer {
        Ok(plan) => has_folders(alloc, plan),
        Err(_) => false,
    }
}

/// Returns whether the plan of a workspace under the profile `bench` has these folders and levels.
fn bench_has_folders(alloc: Global, workspace: &SettledWorkspace) -> Result<bool, Fail> {
    let answer = plan_of(alloc, workspace, "a @bench")?;
    let are_folders = are_folders(alloc, &answer);
    drop(answer);
    Ok(are_folders)
}

/// Returns whether this is the key of a unit.
fn has_key(
    alloc: Global,
    workspace: &Workspace,
    unit: &Unit,
    wanted: &str,
) -> Result<bool, AllocError> {
    let key = unit.key(alloc, workspace)?;
    Ok(key.as_str() == wanted)
}

/// Returns a binary of the package `b` on the host.
fn binary(alloc: Global) -> Result<Unit, AllocError> {
    let name = Text::from_str(alloc, "x_1")?;
    Ok(Unit {
        package: 1,
        side: Side::Host,
        what: What::Bin(name),
    })
}

/// Returns whether the keys of two units are right. The package of the first unit does not exist.
fn has_keys(alloc: Global, workspace: &Workspace) -> Result<bool, AllocError> {
    let run = Unit {
        package: 2,
        side: Side::Target,
        what: What::Run,
    };
    let is_run = has_key(alloc, workspace, &run, ".target.run");
    drop(run);
    let binary = binary(alloc)?;
    let is_binary = has_key(alloc, workspace, &binary, "b.host.bin-x_1");
    drop(binary);
    Ok(is_run? && is_binary?)
}

/// Returns whether the folders, levels and keys of `BOTH_SIDES` are right.
fn are_both_right(alloc: Global) -> Result<bool, Fail> {
    let workspace = workspace_of(alloc, ROOT, BOTH_SIDES)?;
    let has_keys = has_keys(alloc, workspace.get());
    let has_folders = bench_has_folders(alloc, &workspace);
    drop(workspace);
    Ok(has_folders? && has_keys?)
}

/// Rules: `plan.key`, `plan.settings`, `plan.refused`.
#[test]
fn plans(rt: HostRuntime) -> Result<(), Fail> {
    assert_cases(&rt, rt.alloc(), CASES, &PlanCases {}, 20)?;
    assert_cases(&rt, rt.alloc(), SCRIPT_CASES, &PlanCases {}, 15)?;
    assert!(rt; binaries_give(rt.alloc(), 4096, Some(4096))?);
    assert!(rt; binaries_give(rt.alloc(), 4097, None)?);
    assert!(rt; are_circles_found(rt.alloc(), 4096)?);
    assert!(rt; are_both_right(rt.alloc())?);
    Ok(())
}
