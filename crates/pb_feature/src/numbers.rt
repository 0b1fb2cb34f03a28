//! Numbers for the facts that can be true of the packages of a workspace. The rules are written
//! down with these numbers.

ghost use Rattle.std.specs.Prelude.{◌≡◌, ◌+◌, ◌*◌, IfOk, IfSome};
ghost use Rattle.pb_feature.specs.Numbers.{width_of, bases_from, end_from, side_number, number_from, number_at, slot, slot_at, on, has, enabled};

use pb_workspace_types::{FeaturesByName, Package, Side};
use std::alloc::{AllocError, Global};

/// The first number of each package, and how many numbers there are.
#[derive(Drop)]
pub(crate) struct Bases {
    /// The first number of each package.
    pub bases: Vec<usize>,
    /// How many numbers there are.
    pub count: usize,
}

/// The packages of a workspace, and the first number of each package.
#[derive(Clone, Copy)]
pub(crate) struct Ground<'a> {
    /// The packages.
    pub packages: &'a [Package],
    /// The first number of each package.
    pub bases: &'a [usize],
}

/// Returns how many numbers a package has on one side.
fn width_of(owner: &Package) -> Option<usize>
    ensures { IfSome result (λ width. width ≡ width_of owner.now) }
{
    owner
        .features
        .as_slice()
        .len()
        .checked_add(owner.entries.as_slice().len())?
        .checked_add(2)
}

/// Returns the first number of the next package. If the number exceeds `usize`, the call fails as
/// if memory had run out.
fn next_base(base: usize, owner: &Package) -> Result<usize, AllocError>
    ensures { IfOk result (λ next. next ≡ base + width_of owner.now) }
{
    let Some(width) = width_of(owner) else {
        return Err(AllocError);
    };
    match base.checked_add(width) {
        Some(next) => Ok(next),
        None => Err(AllocError),
    }
}

/// Returns the first number of each package.
pub(crate) fn bases_of(alloc: Global, packages: &[Package]) -> Result<Bases, AllocError>
    ensures bases { IfOk result (λ made. made.bases.items ≡ bases_from 0 packages.now) }
    ensures count { IfOk result (λ made. made.count ≡ end_from 0 packages.now * 2) }
{
    let mut bases = Vec::new(alloc);
    let mut base = 0;
    for owner in packages {
        bases.push(base)?;
        base = next_base(base, owner)?;
    }
    match base.checked_mul(2) {
        Some(count) => Ok(Bases { bases, count }),
        None => Err(AllocError),
    }
}

/// Returns a side's number.
fn side_number(side: Side) -> usize
    ensures { result ≡ side_number side }
{
    match side {
        Side::Target => 0,
        Side::Host => 1,
    }
}

/// Returns the number at an offset after a base, on a side.
fn number_from(base: usize, side: Side, local: usize) -> Option<usize>
    ensures { IfSome result (λ i. i ≡ number_from base side local) }
{
    base.checked_add(local)?
        .checked_mul(2)?
        .checked_add(side_number(side))
}

/// Returns the slot of the feature with a name: the number of the feature, counted from 1. Returns
/// 0 if there is no such feature.
pub(crate) fn slot(features: &FeaturesByName, name: &[u8]) -> usize
    ensures { result ≡ slot features.now name.now }
{
    let Some(index) = features.index_of(name) else {
        return 0;
    };
    if index < features.as_slice().len() {
        index + 1
    } else {
        0
    }
}

impl Ground<'_> {
    /// Returns the number at an offset in a package's row, on a side. If the number exceeds
    /// `usize`, the call fails as if memory had run out.
    pub(crate) fn number(&self, pkg: usize, side: Side, local: usize) -> Result<usize, AllocError>
        ensures { IfOk result (λ i. i ≡ number_at self.now.bases.now pkg side local) }
    {
        let base = match self.bases.get(pkg) {
            Some(base) => *base,
            None => 0,
        };
        match number_from(base, side, local) {
            Some(i) => Ok(i),
            None => Err(AllocError),
        }
    }

    /// Returns the slot of the feature with a name, in the package at an index. Returns 0 if there
    /// is no such feature.
    pub(crate) fn slot_at(&self, pkg: usize, name: &[u8]) -> usize
        ensures { result ≡ slot_at self.now.packages.now pkg name.now }
    {
        match self.packages.get(pkg) {
            Some(owner) => slot(&owner.features, name),
            None => 0,
        }
    }

    /// Returns the number of the fact that the package is on.
    pub(crate) fn on(&self, pkg: usize, side: Side) -> Result<usize, AllocError>
        ensures { IfOk result (λ i. i ≡ on self.now.bases.now pkg side) }
    {
        let i = self.number(pkg, side, 0)?;
        Ok(i)
    }

    /// Returns the number of the fact that the package has the feature of this slot. Slots are
    /// counted from 1. Slot 0 is for a feature that the package does not have.
    pub(crate) fn has(&self, pkg: usize, side: Side, feature: usize) -> Result<usize, AllocError>
        ensures { IfOk result (λ i. i ≡ has self.now.bases.now pkg side feature) }
    {
        let Some(local) = feature.checked_add(1) else {
            return Err(AllocError);
        };
        let i = self.number(pkg, side, local)?;
        Ok(i)
    }

    /// Returns the number of the fact that the entry is enabled. The numbers of entries come after
    /// the numbers of features.
    pub(crate) fn number_of_entry(
        &self,
        pkg: usize,
        side: Side,
        features: usize,
        entry: usize,
    ) -> Result<usize, AllocError>
        ensures { IfOk result (λ i. i ≡ enabled self.now.bases.now pkg side features entry) }
    {
        let Some(behind) = entry.checked_add(2) else {
            return Err(AllocError);
        };
        let Some(local) = features.checked_add(behind) else {
            return Err(AllocError);
        };
        let i = self.number(pkg, side, local)?;
        Ok(i)
    }

    /// Returns the number of the fact that the package has the feature with this name.
    pub(crate) fn number_of_feature(
        &self,
        pkg: usize,
        side: Side,
        name: &[u8],
    ) -> Result<usize, AllocError>
        ensures { IfOk result (λ i. i
            ≡ has self.now.bases.now pkg side (slot_at self.now.packages.now pkg name.now)) }
    {
        let i = self.has(pkg, side, self.slot_at(pkg, name))?;
        Ok(i)
    }
}
