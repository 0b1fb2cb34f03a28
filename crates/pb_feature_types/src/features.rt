//! What is on in a workspace: for each package its features and entries, on each side.

ghost use Rattle.std.specs.Prelude.{◌≡◌};
ghost use Rattle.pb_graph.specs.Closure.{is_on};
ghost use Rattle.pb_feature_types.specs.Features.{part_of, is_active, features_at, is_enabled};

use pb_data::{Items, Text};
use pb_workspace_types::Side;

/// What is on in a package, on one side.
#[derive(Drop)]
pub struct Part {
    /// Whether the package is active.
    pub active: bool,
    /// The names of the package's features that are on, in byte order.
    pub features: Items<Text>,
    /// Whether each entry of the package is enabled, by the index of the entry.
    pub enabled: Items<bool>,
}

/// What is on in a package, on each side.
#[derive(Drop)]
pub struct Sides {
    /// On the side of the target.
    pub target: Part,
    /// On the side of the host.
    pub host: Part,
}

/// What is on in a workspace.
#[derive(Drop)]
pub struct Features {
    /// What is on in each package, by the index of the package in the workspace.
    pub packages: Items<Sides>,
}

impl Sides {
    /// Returns what is on in the package on this side.
    fn part(&self, side: Side) -> &Part
        ensures { result.now ≡ part_of self.now side }
    {
        match side {
            Side::Target => &self.target,
            Side::Host => &self.host,
        }
    }
}

impl Features {
    /// Returns whether the package at this index is active on this side. The call takes no memory.
    pub fn active(&self, pkg: usize, side: Side) -> bool
        ensures { result ≡ is_active self.now pkg side }
    {
        match self.packages.as_slice().get(pkg) {
            Some(sides) => sides.part(side).active,
            None => false,
        }
    }

    /// Returns the names of the features that are on in a package on this side, in byte order. The
    /// package is given by its index. The call takes no memory.
    pub fn features_of(&self, pkg: usize, side: Side) -> &[Text]
        ensures { result.now ≡ features_at self.now pkg side }
    {
        match self.packages.as_slice().get(pkg) {
            Some(sides) => sides.part(side).features.as_slice(),
            None => &[],
        }
    }

    /// Returns whether an entry of a package is enabled on this side. The package and the entry are
    /// given by their indices. The call takes no memory.
    pub fn enabled(&self, pkg: usize, side: Side, entry: usize) -> bool
        ensures { result ≡ is_enabled self.now pkg side entry }
    {
        match self.packages.as_slice().get(pkg) {
            Some(sides) => is_marked(sides.part(side).enabled.as_slice(), entry),
            None => false,
        }
    }
}

/// Returns whether a number is marked. A number past the end of `marks` is not marked. The call
/// takes no memory.
pub fn is_marked(marks: &[bool], number: usize) -> bool
    ensures { result ≡ is_on marks.now number }
{
    match marks.get(number) {
        Some(mark) => *mark,
        None => false,
    }
}
