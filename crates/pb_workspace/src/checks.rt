//! Faults that are looked for after all packages are read.

ghost use Rattle.std.specs.Prelude.{◌≡◌, IfOk, IfSome, false, map};
ghost use Rattle.std.specs.List.{filter_map, list_any};
ghost use Rattle.pb_workspace_package.specs.Causes.{is_failure};
ghost use Rattle.pb_workspace_package.specs.declared.unresolved_package.UnresolvedPackage.{UnresolvedPackage};
ghost use Rattle.pb_workspace.specs.Checks.{has_same_names, has_other_name, matches_if, has_other_version, some_leads, links_twice, links_without_script, fault_of};
ghost use Rattle.pb_workspace.specs.Indices.{indices_of, draft_in};
ghost use Rattle.pb_workspace_package.specs.Settling.{comes_again};
ghost use Rattle.pb_workspace_package.specs.declared.wanted.Wanted.{Wanted};

use crate::by_folder::ByFolder;
use crate::indices::draft_in;
use pb_data::OrderedSet;
use pb_manifest_types::{Requirement, Version};
use pb_workspace_package::{UnresolvedPackage, Wanted, was_mentioned};
use pb_workspace_types::LoadFault;
use std::alloc::{AllocError, Global};

/// Returns whether two of these packages have the same name, or whether one of them has a name that
/// was seen before.
fn names_come_again(
    alloc: Global,
    seen: &mut OrderedSet,
    drafts: &[UnresolvedPackage],
) -> Result<bool, AllocError>
    ensures { IfOk result
        (λ answer. answer ≡ comes_again seen.old (map (λ (d : UnresolvedPackage).
        d.name) drafts.now)) }
{
    for draft in drafts {
        if was_mentioned(alloc, seen, &draft.name)? {
            return Ok(true);
        }
    }
    Ok(false)
}

/// Returns whether two packages have the same name.
fn has_same_names(alloc: Global, drafts: &[UnresolvedPackage]) -> Result<bool, AllocError>
    ensures { IfOk result (λ answer. answer ≡ has_same_names drafts.now) }
{
    let mut seen = OrderedSet::new(alloc);
    let again = names_come_again(alloc, &mut seen, drafts);
    drop(seen);
    again
}

/// Returns whether two of these packages link the same native library, or whether one of them links
/// a library that was seen before.
fn links_come_again(
    alloc: Global,
    seen: &mut OrderedSet,
    drafts: &[UnresolvedPackage],
) -> Result<bool, AllocError>
    ensures { IfOk result
        (λ answer. answer ≡ comes_again seen.old (filter_map (λ (d : UnresolvedPackage).
        d.links) drafts.now)) }
{
    for draft in drafts {
        if let Some(links) = &draft.links {
            if was_mentioned(alloc, seen, links)? {
                return Ok(true);
            }
        }
    }
    Ok(false)
}

/// Returns whether two packages link the same native library.
fn links_twice(alloc: Global, drafts: &[UnresolvedPackage]) -> Result<bool, AllocError>
    ensures { IfOk result (λ answer. answer ≡ links_twice drafts.now) }
{
    let mut seen = OrderedSet::new(alloc);
    let again = links_come_again(alloc, &mut seen, drafts);
    drop(seen);
    again
}

/// Returns whether a version matches a requirement. If there is no requirement, every version
/// matches.
fn matches_if(requirement: &Option<Requirement>, version: &Version) -> bool
    ensures { result ≡ matches_if requirement.now version.now }
{
    match requirement {
        Some(requirement) => requirement.matches(version),
        None => true,
    }
}

/// Returns whether an entry leads to a package that does not have the requested name.
fn leads_to_other_name(
    drafts: &[UnresolvedPackage],
    indices: &ByFolder<usize>,
    wanted: &Wanted,
) -> bool
    requires { indices.now ≡ indices_of drafts.now }
    ensures { result ≡ has_other_name wanted.now (draft_in drafts.now wanted.now.folder) }
{
    match draft_in(drafts, indices, &wanted.folder) {
        Some(draft) => wanted.name != draft.name,
        None => true,
    }
}

/// Returns whether an entry leads to a package whose version does not match the entry's
/// requirement.
fn leads_to_other_version(
    drafts: &[UnresolvedPackage],
    indices: &ByFolder<usize>,
    wanted: &Wanted,
) -> bool
    requires { indices.now ≡ indices_of drafts.now }
    ensures { result ≡ has_other_version wanted.now (draft_in drafts.now wanted.now.folder) }
{
    match draft_in(drafts, indices, &wanted.folder) {
        Some(draft) => !matches_if(&wanted.version, &draft.version),
        None => true,
    }
}

/// Returns whether one of these entries leads to a package that does not have the requested name.
fn one_other_name(
    drafts: &[UnresolvedPackage],
    indices: &ByFolder<usize>,
    wanted: &[Wanted],
) -> bool
    requires { indices.now ≡ indices_of drafts.now }
    ensures { result
        ≡ list_any (λ (w : Wanted). has_other_name w (draft_in drafts.now w.folder)) wanted.now }
{
    for one in wanted {
        if leads_to_other_name(drafts, indices, one) {
            return true;
        }
    }
    false
}

/// Returns whether an entry of some package leads to a package that does not have the requested
/// name.
fn some_other_name(drafts: &[UnresolvedPackage], indices: &ByFolder<usize>) -> bool
    requires { indices.now ≡ indices_of drafts.now }
    ensures { result ≡ some_leads has_other_name drafts.now }
{
    for draft in drafts {
        if one_other_name(drafts, indices, draft.wanted.as_slice()) {
            return true;
        }
    }
    false
}

/// Returns whether one of these entries leads to a package whose version does not match the entry's
/// requirement.
fn one_other_version(
    drafts: &[UnresolvedPackage],
    indices: &ByFolder<usize>,
    wanted: &[Wanted],
) -> bool
    requires { indices.now ≡ indices_of drafts.now }
    ensures { result
        ≡ list_any (λ (w : Wanted). has_other_version w (draft_in drafts.now w.folder)) wanted.now }
{
    for one in wanted {
        if leads_to_other_version(drafts, indices, one) {
            return true;
        }
    }
    false
}

/// Returns whether an entry of some package leads to a package whose version does not match the
/// entry's requirement.
fn some_other_version(drafts: &[UnresolvedPackage], indices: &ByFolder<usize>) -> bool
    requires { indices.now ≡ indices_of drafts.now }
    ensures { result ≡ some_leads has_other_version drafts.now }
{
    for draft in drafts {
        if one_other_version(drafts, indices, draft.wanted.as_slice()) {
            return true;
        }
    }
    false
}

/// Returns whether a package links a native library but has no build script.
fn links_without_script(draft: &UnresolvedPackage) -> bool
    ensures { result ≡ links_without_script draft.now }
{
    draft.links.is_some() && !draft.script.is_some()
}

/// Returns whether some package links a native library but has no build script.
fn some_without_script(drafts: &[UnresolvedPackage]) -> bool
    ensures { result ≡ list_any links_without_script drafts.now }
{
    drafts.iter().any(|draft| links_without_script(draft))
}

/// Returns whether some package has two `[[bin]]` with the same name.
fn some_same_binaries(drafts: &[UnresolvedPackage]) -> bool
    ensures { result ≡ list_any (λ (d : UnresolvedPackage). d.has_same_binaries) drafts.now }
{
    drafts.iter().any(|draft| draft.has_same_binaries)
}

/// Returns the first of these faults that some package has: `SameName`, `NameMismatch`,
/// `VersionMismatch`, `LinksTwice`, `LinksWithoutScript`, `SameBinary`.
///
/// Errors: out of memory only.
#[tactic(auto, unfolding(crate::specs::Checks::fault_of))]
pub fn fault_of(
    alloc: Global,
    drafts: &[UnresolvedPackage],
    indices: &ByFolder<usize>,
) -> Result<Option<LoadFault>, AllocError>
    requires { indices.now ≡ indices_of drafts.now }
    ensures fault { IfOk result (λ fault. fault ≡ fault_of drafts.now) }
    ensures here { IfOk result (λ fault. IfSome fault (λ e. is_failure e ≡ false)) }
{
    if has_same_names(alloc, drafts)? {
        return Ok(Some(LoadFault::SameName));
    }
    if some_other_name(drafts, indices) {
        return Ok(Some(LoadFault::NameMismatch));
    }
    if some_other_version(drafts, indices) {
        return Ok(Some(LoadFault::VersionMismatch));
    }
    if links_twice(alloc, drafts)? {
        return Ok(Some(LoadFault::LinksTwice));
    }
    if some_without_script(drafts) {
        return Ok(Some(LoadFault::LinksWithoutScript));
    }
    if some_same_binaries(drafts) {
        return Ok(Some(LoadFault::SameBinary));
    }
    Ok(None)
}
