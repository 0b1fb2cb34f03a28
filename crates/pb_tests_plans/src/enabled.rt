//! What is on, as text.

use pb_feature::Features;
use pb_tests_files::Shown;
use pb_workspace_types::{DependencyKind, Entry, Package, Side};

/// Puts the entries that are enabled, each by its key: `>KEY` of `[dependencies]`, `>>KEY` of
/// `[build-dependencies]`.
fn put_entries(out: &mut Shown, features: &Features, pkg: usize, side: Side, entries: &[Entry]) {
    for (number, entry) in entries.iter().enumerate() {
        if features.enabled(pkg, side, number) {
            let before = match entry.kind {
                DependencyKind::Normal => " >",
                DependencyKind::Build => " >>",
            };
            out.put(&[before, entry.key.as_str()]);
        }
    }
}

/// Puts what is on in a package on one side, if the package or something in it is on.
fn put_part(out: &mut Shown, features: &Features, pkg: usize, side: Side, found: &Package) {
    let names = features.features_of(pkg, side);
    if features.active(pkg, side) || !names.is_empty() {
        if !out.is_empty() {
            out.put(&["; "]);
        }
        let side_name = match side {
            Side::Target => ".target",
            Side::Host => ".host",
        };
        out.put(&[found.name.as_str(), side_name]);
        out.put_each(" ", names, "");
        put_entries(out, features, pkg, side, found.entries.as_slice());
    }
}

/// Puts what is on: packages in byte order of their folders, each with its features and its enabled
/// entries, for the target and for the host.
pub fn put_enabled(out: &mut Shown, features: &Features, packages: &[Package]) {
    for (pkg, found) in packages.iter().enumerate() {
        put_part(out, features, pkg, Side::Target, found);
        put_part(out, features, pkg, Side::Host, found);
    }
}
