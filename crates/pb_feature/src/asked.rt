//! Checks that each requested feature is a feature of a selected package.

ghost use Rattle.std.specs.Prelude.{◌≡◌, ℕ, ◌⊎◌, List, All, Contains, true, false, OnOk, IfOk, IfErr};
ghost use Rattle.std.specs.List.{list_any};
ghost use Rattle.pb_feature.specs.Rules.{is_text_of};
ghost use Rattle.pb_feature.specs.Answered.{is_owner_of, is_owner_at, is_answered, IsUnanswered};
ghost use Rattle.pb_feature.specs.declared.fault.FeatureFault.TheVariants.{OutOfMemory, NoSuchFeature};

use crate::fault::FeatureFault;
use crate::seeds::of_package;
use pb_workspace_types::{Package, Selection};
use std::alloc::{AllocError, Global};

/// Returns whether a text requests this feature of the package with this name.
fn is_text_of(alloc: Global, name: &str, feature: &str, text: &str) -> Result<bool, AllocError>
    ensures { IfOk result (λ is. is ≡ is_text_of name.now feature.now text.now) }
{
    let whole = of_package(alloc, name, feature)?;
    Ok(text == feature || text == whole.as_str())
}

/// Returns whether a text requests a feature of this package.
fn is_owner_of(alloc: Global, owner: &Package, text: &str) -> Result<bool, AllocError>
    ensures { IfOk result (λ is. is ≡ is_owner_of owner.now text.now) }
{
    let name = owner.name.as_str();
    for feature in owner.features.as_slice() {
        if is_text_of(alloc, name, feature.name.as_str(), text)? {
            return Ok(true);
        }
    }
    Ok(false)
}

/// Returns whether a text requests a feature of the package at an index.
fn is_owner_at(
    alloc: Global,
    packages: &[Package],
    text: &str,
    pkg: usize,
) -> Result<bool, AllocError>
    ensures { IfOk result (λ is. is ≡ is_owner_at packages.now text.now pkg) }
{
    match packages.get(pkg) {
        Some(owner) => is_owner_of(alloc, owner, text),
        None => Ok(false),
    }
}

/// Returns whether a text requests a feature of a package at one of these indices.
fn is_answered(
    alloc: Global,
    packages: &[Package],
    pkgs: &[usize],
    text: &str,
) -> Result<bool, AllocError>
    ensures { IfOk result (λ is. is ≡ is_answered packages.now pkgs.now text.now) }
{
    for pkg in pkgs {
        if is_owner_at(alloc, packages, text, *pkg)? {
            return Ok(true);
        }
    }
    Ok(false)
}

/// Checks that each requested feature is a feature of a selected package.
pub(crate) fn check_asked(
    alloc: Global,
    packages: &[Package],
    selection: &Selection,
) -> Result<(), FeatureFault>
    ensures ok { OnOk result (All (λ text. is_answered packages.now selection.now.packages text
        ≡ true) selection.now.features) }
    ensures err { IfErr result (λ e. (e ≡ OutOfMemory)
        ⊎ ((e ≡ NoSuchFeature) × IsUnanswered packages.now selection.now)) }
{
    let pkgs = selection.packages.as_slice();
    for text in selection.features.as_slice() {
        if !is_answered(alloc, packages, pkgs, text.as_str())? {
            return Err(FeatureFault::NoSuchFeature);
        }
    }
    Ok(())
}
