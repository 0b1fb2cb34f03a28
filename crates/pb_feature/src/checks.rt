//! Checks the items of all packages. If several packages have wrong items, the fault of the first
//! such package, in byte order of names, is returned.

ghost use Rattle.std.specs.Prelude.{◌≡◌, ℕ, ◌+◌, ◌<◌, None, length, OnOk, IfErr};
ghost use Rattle.pb_feature.specs.Checked.{is_lesser, is_lesser_at, picked, IsFirstBelow, IsSofar};

use crate::fault::FeatureFault;
use crate::items::package_fault;
use pb_workspace_types::Package;

/// A package with a wrong item.
#[derive(Clone, Copy)]
pub(crate) struct First {
    /// The index of the package.
    pub pkg: usize,
    /// The fault of the item.
    pub fault: FeatureFault,
}

/// Returns whether the name of the first package is before the name of the second in byte order.
fn is_lesser(one: &Package, other: &Package) -> bool
    ensures { result ≡ is_lesser one.now other.now }
{
    one.name.cmp(&other.name).is_lt()
}

/// Returns whether the name of the package at an index is before the name of the found package.
/// Returns true if no package was found.
fn is_lesser_at(packages: &[Package], pkg: usize, first: Option<First>) -> bool
    ensures { result ≡ is_lesser_at packages.now pkg first }
{
    let Some(first) = first else {
        return true;
    };
    match (packages.get(pkg), packages.get(first.pkg)) {
        (Some(one), Some(other)) => is_lesser(one, other),
        _ => false,
    }
}

/// Returns the first package with a wrong item, after one more package has been checked.
fn first_of(
    fault: Option<FeatureFault>,
    first: Option<First>,
    lesser: bool,
    pkg: usize,
) -> Option<First>
    ensures { result ≡ picked fault first lesser pkg }
{
    let Some(fault) = fault else {
        return first;
    };
    let Some(old) = first else {
        return Some(First { pkg, fault });
    };
    if lesser {
        Some(First { pkg, fault })
    } else {
        Some(old)
    }
}

/// Returns the first package with a wrong item, in byte order of names.
fn first_fault(packages: &[Package]) -> Option<First>
    ensures { IsSofar packages.now (length packages.now) result }
{
    let mut first = None;
    for pkg in 0..packages.len() {
        let fault = package_fault(&packages[pkg]);
        let lesser = is_lesser_at(packages, pkg, first);
        first = first_of(fault, first, lesser, pkg);
    }
    first
}

/// Checks the items of all packages.
pub(crate) fn check_items(packages: &[Package]) -> Result<(), FeatureFault>
    ensures ok { OnOk result (IsSofar packages.now (length packages.now) None) }
    ensures err { IfErr result (λ e. (pkg : ℕ)
        × IsFirstBelow packages.now (length packages.now) pkg e) }
{
    match first_fault(packages) {
        Some(first) => Err(first.fault),
        None => Ok(()),
    }
}
