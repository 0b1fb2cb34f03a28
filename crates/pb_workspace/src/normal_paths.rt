//! All paths of a workspace are normalised. The type of paths promises this for each path, and the
//! functions here promise it for all paths at once. The functions do nothing when they run.

ghost use Rattle.std.specs.Prelude.{◌≡◌, All, IfSome, true};
ghost use Rattle.pb_place_types.specs.Paths.{is_path};
ghost use Rattle.pb_workspace.specs.NormalPaths.{HasSource, HasOwnPaths, HasNormalPaths};

use pb_place_types::PathText;
use pb_workspace_types::{Binary, Library, Package, Workspace};

/// States that a path is normalised and absolute.
fn is_normal(path: &PathText)
    ensures { is_path path.now ≡ true }
{
    let _text = path.as_str();
}

/// States that the source of a library is normalised.
fn library_is_normal(library: &Option<Library>)
    ensures { IfSome library.now (λ library. is_path library.source ≡ true) }
{
    if let Some(library) = library {
        is_normal(&library.source);
    }
}

/// States that the source of a binary is normalised.
fn binary_is_normal(binary: &Binary)
    ensures { HasSource binary.now }
{
    is_normal(&binary.source);
}

/// States that the source of each binary is normalised.
fn binaries_are_normal(binaries: &[Binary])
    ensures { All HasSource binaries.now }
{
    for binary in binaries {
        binary_is_normal(binary);
    }
}

/// States that the source of a build script is normalised.
fn script_is_normal(script: &Option<PathText>)
    ensures { IfSome script.now (λ path. is_path path ≡ true) }
{
    if let Some(path) = script {
        is_normal(path);
    }
}

/// States that all paths of a package are normalised and absolute.
fn package_has_paths(owner: &Package)
    ensures { HasOwnPaths owner.now }
{
    is_normal(&owner.folder);
    is_normal(&owner.manifest);
    library_is_normal(&owner.library);
    binaries_are_normal(owner.binaries.as_slice());
    script_is_normal(&owner.script);
}

/// States that all paths of each package are normalised and absolute.
fn packages_have_paths(packages: &[Package])
    ensures { All HasOwnPaths packages.now }
{
    for owner in packages {
        package_has_paths(owner);
    }
}

/// States that all paths of a workspace are normalised and absolute: its root, its target folder,
/// and the folder, manifest and sources of each package. The function does nothing. Its contract
/// states the fact for callers that have a workspace (our own choice).
pub fn workspace_has_paths(workspace: &Workspace)
    ensures { HasNormalPaths workspace.now }
{
    is_normal(&workspace.root);
    is_normal(&workspace.target);
    packages_have_paths(workspace.packages.as_slice());
}
