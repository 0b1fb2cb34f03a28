//! Features: a table of manifests, each with what is requested and which features are on.

use crate::asking::{assert_cases, options_of, workspace_of};
use crate::enabled::put_enabled;
use crate::refused_features::REFUSED;
use crate::resolutions::RESOLUTIONS;
use pb_feature::resolve;
use pb_tests_files::{Answers, Case, Shown, Trial, put_answers};
use pb_workspace::selected;
use pb_workspace_types::{Options, SelectedWorkspace, SettledWorkspace, Workspace};
use std::alloc::Global;
use std::test::Fail;

/// Writes what is on if these packages are selected, or the refusal.
fn put_resolved(
    alloc: Global,
    workspace: &Workspace,
    chosen: &SelectedWorkspace<'_>,
    out: &mut Shown,
) {
    let answer = resolve(alloc, chosen);
    match &answer {
        Ok(features) => put_enabled(out, features, workspace.packages.as_slice()),
        Err(fault) => out.put_value(fault),
    }
    drop(answer);
}

/// Writes the same of what options select.
fn put_resolved_with(
    alloc: Global,
    workspace: &SettledWorkspace,
    options: &Options,
    out: &mut Shown,
) -> Result<(), Fail> {
    let chosen = selected(alloc, workspace, options)?;
    put_resolved(alloc, workspace.get(), &chosen, out);
    drop(chosen);
    Ok(())
}

/// The features of a workspace, by words for options.
#[derive(Drop)]
struct FeaturesOf<'a> {
    workspace: &'a SettledWorkspace,
}

impl Answers for FeaturesOf<'_> {
    fn put_answer(&self, alloc: Global, question: &str, out: &mut Shown) -> Result<(), Fail> {
        let options = options_of(alloc, question, "; ")?;
        let put = put_resolved_with(alloc, self.workspace, &options, out);
        drop(options);
        put
    }
}

/// Cases of workspaces, with questions about their features.
struct FeatureCases {}

impl Trial for FeatureCases {
    fn put_result(&self, alloc: Global, case: &Case<'_>, out: &mut Shown) -> Result<(), Fail> {
        let workspace = workspace_of(alloc, "", case.given)?;
        let answers = FeaturesOf {
            workspace: &workspace,
        };
        let put = put_answers(alloc, &answers, case.wanted, out);
        drop(workspace);
        put
    }
}

/// Rules: `resolve.selected`.
#[test]
fn features(rt: HostRuntime) -> Result<(), Fail> {
    assert_cases(&rt, rt.alloc(), RESOLUTIONS, &FeatureCases {}, 26)?;
    assert_cases(&rt, rt.alloc(), REFUSED, &FeatureCases {}, 15)?;
    Ok(())
}
