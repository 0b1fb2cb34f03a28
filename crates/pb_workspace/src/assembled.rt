//! A workspace assembled from the packages that were read.

ghost use Rattle.std.specs.Prelude.{◌≡◌, ◌++◌, Bool, IfOk, OnOk, map, unwrap_or};
ghost use Rattle.std.specs.List.{list_all, list_any};
ghost use Rattle.pb_workspace.specs.Assembled.{entry_at, package_at, packages_of, is_meant_member, is_known, is_default, default_members_of, assembled};
ghost use Rattle.pb_workspace.specs.Members.{means, parts_match, parts_meant};
ghost use Rattle.pb_workspace_package.specs.Between.{names_in};
ghost use Rattle.pb_workspace.specs.ByFolder.{value_of};
ghost use Rattle.pb_workspace.specs.Indices.{indices_of};
ghost use Rattle.pb_workspace.specs.Selected.{indices_where};

use crate::by_folder::ByFolder;
use crate::glob::is_glob;
use crate::member::{is_meant, parts_meant};
use crate::workspace_root::WorkspaceRoot;
use pb_data::{Items, TryCopy};
use pb_manifest_types::{Profile, WrittenPath};
use pb_place_types::PathText;
use pb_workspace_package::{UnresolvedPackage, Wanted, WantedByKey};
use pb_workspace_types::{DefaultMembers, EntriesByKey, Entry, Package, Workspace};
use std::alloc::{AllocError, Global};

/// Returns the index of the package of a folder.
fn index_in(indices: &ByFolder<usize>, folder: &PathText) -> Option<usize>
    ensures { result ≡ value_of folder.now indices.now }
{
    match indices.get(folder) {
        Some(index) => Some(*index),
        None => None,
    }
}

/// Returns an entry with the index of the package to which it leads.
fn entry_at(indices: &ByFolder<usize>, wanted: Wanted) -> Entry
    ensures { result ≡ entry_at indices.now wanted }
{
    let to = index_in(indices, &wanted.folder).unwrap_or(0);
    Entry {
        key: wanted.key,
        kind: wanted.kind,
        to,
        renamed: wanted.renamed,
        optional: wanted.optional,
        default_features: wanted.default_features,
        features: wanted.features,
    }
}

/// Returns entries with the indices of the packages to which they lead.
fn entries_of(
    alloc: Global,
    indices: &ByFolder<usize>,
    wanted: Items<Wanted>,
) -> Result<Items<Entry>, AllocError>
    ensures { IfOk result (λ entries. entries ≡ map (entry_at indices.now) wanted) }
{
    let mut entries = Items::new(alloc);
    for one in wanted.into_vec() {
        entries.push(entry_at(indices, one))?;
    }
    Ok(entries)
}

/// Returns the entries of a package with the indices of the packages to which they lead. The order
/// of the entries is unchanged.
fn entries_in_order(
    alloc: Global,
    indices: &ByFolder<usize>,
    wanted: WantedByKey,
) -> Result<EntriesByKey, AllocError>
    ensures { IfOk result (λ entries. entries ≡ map (entry_at indices.now) wanted) }
{
    let wanted = wanted.into_items();
    let entries = entries_of(alloc, indices, wanted)?;
    Ok(EntriesByKey::from_items(entries))
}

/// Returns a package whose entries have the indices of the packages to which they lead.
fn package_at(
    alloc: Global,
    indices: &ByFolder<usize>,
    draft: UnresolvedPackage,
) -> Result<Package, AllocError>
    ensures { IfOk result (λ made. made ≡ package_at indices.now draft) }
{
    let UnresolvedPackage {
        folder,
        manifest,
        is_member,
        name,
        version,
        edition,
        about,
        links,
        library,
        binaries,
        script,
        wanted,
        features,
        development,
        has_same_binaries: _,
    } = draft;
    entries_in_order(alloc, indices, wanted).map(|entries| Package {
        name,
        version,
        edition,
        folder,
        manifest,
        is_member,
        about,
        links,
        library,
        binaries,
        script,
        entries,
        features,
        development,
    })
}

/// Returns packages whose entries have the indices of the packages to which they lead.
fn packages_of(
    alloc: Global,
    indices: &ByFolder<usize>,
    drafts: Items<UnresolvedPackage>,
) -> Result<Items<Package>, AllocError>
    ensures { IfOk result (λ made. made ≡ map (package_at indices.now) drafts) }
{
    let mut made = Items::new(alloc);
    for draft in drafts.into_vec() {
        made.push(package_at(alloc, indices, draft)?)?;
    }
    Ok(made)
}

/// Returns whether a text means this member.
fn is_meant_member(
    alloc: Global,
    root: &PathText,
    member: &Package,
    text: &WrittenPath,
) -> Result<bool, AllocError>
    ensures { IfOk result (λ answer. answer ≡ is_meant_member root.now member.now text.now) }
{
    if !member.is_member {
        return Ok(false);
    }
    let parts = parts_meant(alloc, root, text)?;
    is_meant(alloc, parts.as_slice(), &member.folder)
}

/// Returns whether a text means some member.
fn means_some(
    alloc: Global,
    root: &PathText,
    packages: &[Package],
    text: &WrittenPath,
) -> Result<bool, AllocError>
    ensures { IfOk result
        (λ answer. answer ≡ list_any (λ p. is_meant_member root.now p text.now) packages.now) }
{
    for member in packages {
        if is_meant_member(alloc, root, member, text)? {
            return Ok(true);
        }
    }
    Ok(false)
}

/// Returns whether each text is a glob or means some member.
fn all_known(
    alloc: Global,
    root: &PathText,
    packages: &[Package],
    texts: &[WrittenPath],
) -> Result<bool, AllocError>
    ensures { IfOk result (λ answer. answer ≡ list_all (is_known root.now packages.now) texts.now) }
{
    for text in texts {
        if !is_glob(text.as_str()) && !means_some(alloc, root, packages, text)? {
            return Ok(false);
        }
    }
    Ok(true)
}

/// Returns whether one of the texts means a package that is a member.
fn is_default(
    alloc: Global,
    root: &PathText,
    texts: &[WrittenPath],
    member: &Package,
) -> Result<bool, AllocError>
    ensures { IfOk result (λ answer. answer ≡ is_default root.now texts.now member.now) }
{
    for text in texts {
        if is_meant_member(alloc, root, member, text)? {
            return Ok(true);
        }
    }
    Ok(false)
}

/// Returns the indices of the members that the texts mean.
fn default_indices(
    alloc: Global,
    root: &PathText,
    packages: &[Package],
    texts: &[WrittenPath],
) -> Result<Items<usize>, AllocError>
    ensures { IfOk result
        (λ indices. indices ≡ indices_where (is_default root.now texts.now) packages.now) }
{
    let mut indices = Items::new(alloc);
    for (index, member) in packages.iter().enumerate() {
        if is_default(alloc, root, texts, member)? {
            indices.push(index)?;
        }
    }
    Ok(indices)
}

/// Returns the default members of these packages, as `default-members` lists them.
fn default_members_of(
    alloc: Global,
    root: &PathText,
    packages: &[Package],
    texts: &Option<Items<WrittenPath>>,
) -> Result<DefaultMembers, AllocError>
    ensures { IfOk result
        (λ members. members ≡ default_members_of root.now packages.now texts.now) }
{
    let texts = match texts {
        Some(texts) => texts.as_slice(),
        None => return Ok(DefaultMembers::Unwritten),
    };
    if !all_known(alloc, root, packages, texts)? {
        return Ok(DefaultMembers::Unknown);
    }
    let indices = default_indices(alloc, root, packages, texts)?;
    Ok(DefaultMembers::Named(indices))
}

/// Returns these packages, with the indices of the packages to which their entries lead, and their
/// default members.
fn members_of(
    alloc: Global,
    frame: &WorkspaceRoot,
    indices: &ByFolder<usize>,
    drafts: Items<UnresolvedPackage>,
) -> Result<(Items<Package>, DefaultMembers), AllocError>
    requires { indices.now ≡ indices_of drafts }
    ensures packages { IfOk result (λ made. made.0 ≡ packages_of drafts) }
    ensures defaults { IfOk result (λ made. made.1
        ≡ default_members_of frame.now.root (packages_of drafts) frame.now.default_members) }
{
    let packages = packages_of(alloc, indices, drafts)?;
    let default_members = default_members_of(
        alloc,
        &frame.root,
        packages.as_slice(),
        &frame.default_members,
    )?;
    Ok((packages, default_members))
}

/// Returns copies of two paths.
fn both(alloc: Global, one: &PathText, other: &PathText) -> Result<(PathText, PathText), AllocError>
    ensures { IfOk result (λ made. (made.0 ≡ one.now) × (made.1 ≡ other.now)) }
{
    let one = one.copy(alloc)?;
    let other = other.copy(alloc)?;
    Ok((one, other))
}

/// Returns the workspace of these packages.
///
/// Errors: out of memory only.
#[tactic(auto, unfolding(crate::specs::Assembled::assembled))]
pub fn assemble(
    alloc: Global,
    target: &PathText,
    frame: &WorkspaceRoot,
    profiles: Items<Profile>,
    indices: &ByFolder<usize>,
    drafts: Items<UnresolvedPackage>,
) -> Result<Workspace, AllocError>
    requires { indices.now ≡ indices_of drafts }
    ensures { IfOk result (λ made. made ≡ assembled target.now frame.now profiles drafts) }
{
    let root_package = index_in(indices, &frame.root);
    let (root, target) = both(alloc, &frame.root, target)?;
    let (packages, default_members) = members_of(alloc, frame, indices, drafts)?;
    Ok(Workspace {
        root,
        target,
        packages,
        root_package,
        default_members,
        profiles,
    })
}
