//! `[workspace]`, and the order of the last tables (The Cargo Book, Workspaces). A case is a line
//! `=== [RULE] NAME`, a manifest, and after a line `---` the answer.

/// The cases.
pub const WORKSPACE: &str = r#"=== [package.present] a workspace without a package
[workspace]
---
- workspace()
=== [package.present] tables of a workspace without a package
workspace = {}
lib = {}
dependencies.q.path = "q"
---
- lib() dep(q path=q) workspace()
=== [manifest.order] `[lib]` comes before `[workspace]`
workspace = 1
lib = 1
---
BadKind(Lib)
=== [workspace.keys] a number
workspace = 1
---
BadKind(Workspace)
=== [workspace.keys] a list
package.name = "a"
workspace = []
---
BadKind(Workspace)
=== [workspace.keys] lists of paths, and keys that no rule names
[workspace]
members = ["a", "b/*"]
default-members = []
exclude = ["c"]
resolver = "2"
metadata = 1
lints = 1
unknown = 1
---
- workspace( members=a+b/* default-members= exclude=c)
=== [workspace.keys] default members
package.name = "a"
workspace.default-members = ["m"]
workspace.resolver = "3"
---
a 0.0.0 E2015 workspace( default-members=m)
=== [package.inherited] every key that members may inherit
[workspace.package]
authors = ["x"]
description = "d"
edition = "2021"
homepage = "h"
license = "l"
license-file = "f"
readme = true
repository = "p"
rust-version = "1"
version = "1.2.3"
name = 1
links = 1
---
- workspace( package( authors=x description=d edition=E2021 homepage=h license=l license-file=f readme=true repository=p rust-version=1 version=1.2.3))
=== [package.inherited] none
[workspace.package]
---
- workspace( package())
=== [dependencies.shared] entries without a supported source
[workspace.dependencies]
a = "1"
b = { path = "b", features = ["f"] }
c = { git = "g", path = "c" }
d = { optional = true }
e = { path = "e", registry = 1 }
---
- workspace( dep(a !) dep(b path=b features=f) dep(c !) dep(d !) dep(e !))
=== [dependencies.shared] a text that is no requirement
workspace.dependencies.a = "junk"
---
BadVersion
=== [dependencies.version] a version that is no requirement, beside `git`
workspace.dependencies.a = { git = "g", version = "junk" }
---
BadVersion
=== [dependencies.key] a key with a blank
workspace.dependencies."a b" = 1
---
BadName
=== [dependencies.text] an entry that is a number, in the workspace
workspace.dependencies.a = 1
---
BadKind(Dependencies)
=== [dependencies.flags] `optional` that is a number
workspace.dependencies.a = { git = "g", optional = 1 }
---
BadKind(Optional)
=== [dependencies.workspace] `workspace = false`, in the workspace
workspace.dependencies.a = { path = "a", workspace = false }
---
BadKind(Workspace)
=== [manifest.order] `default-members` comes before `dependencies`
workspace = { default-members = "m", dependencies = 1 }
---
BadKind(DefaultMembers)
=== [manifest.order] `dependencies` comes before `exclude`
workspace = { dependencies = 1, exclude = 1 }
---
BadKind(Dependencies)
=== [manifest.order] `exclude` comes before `members`
workspace = { exclude = ["\u0000"], members = 1 }
---
BadKind(Exclude)
=== [manifest.order] `members` comes before `package`
workspace = { members = ["a\u0000b"], package = 1 }
---
BadKind(Members)
=== [workspace.keys] a default member of byte 0
workspace = { default-members = ["\u0000"] }
---
BadKind(DefaultMembers)
=== [workspace.keys] a member that is a number
workspace.members = [1]
---
BadKind(Members)
=== [manifest.order] `package` comes before `resolver`
workspace = { package = 1, resolver = 1 }
---
BadKind(Package)
=== [package.resolver] a text that is none
workspace.resolver = "x"
---
BadKind(Resolver)
=== [manifest.order] a version comes before `resolver`
workspace = { package.version = "1", resolver = "x" }
---
BadVersion
=== [package.inherited] a key of the workspace cannot be inherited
workspace.package.version.workspace = true
---
BadKind(Version)
=== [manifest.order] `edition` comes before `version`
workspace.package = { edition = "x", version = "x" }
---
BadKind(Edition)
=== [manifest.order] `readme` comes before `version`
workspace.package = { readme = 1, version = "x" }
---
BadKind(Readme)
=== [manifest.order] `[features]` comes before `[workspace]`
workspace = 1
features.f = ["a b"]
---
BadFeature
=== [manifest.order] `[profile]` comes before `[workspace]`
workspace = 1
profile = 1
---
BadProfile
=== [manifest.order] `[[bin]]` comes before `[dependencies]`
workspace = 1
bin = [{}]
dependencies.s = "1"
---
BadName
=== [manifest.order] `authors` comes before `description`
workspace.package = { description = 1, authors = 1 }
---
BadKind(Authors)
=== [manifest.order] `description` comes before `edition`, in the workspace
workspace.package = { edition = 1, description = 1 }
---
BadKind(Description)
=== [manifest.order] `edition` comes before `homepage`, in the workspace
workspace.package = { homepage = 1, edition = 1 }
---
BadKind(Edition)
=== [manifest.order] `homepage` comes before `license`, in the workspace
workspace.package = { license = 1, homepage = 1 }
---
BadKind(Homepage)
=== [manifest.order] `license` comes before `license-file`, in the workspace
workspace.package = { license-file = 1, license = 1 }
---
BadKind(License)
=== [manifest.order] `license-file` comes before `readme`
workspace.package = { readme = 1, license-file = 1 }
---
BadKind(LicenseFile)
=== [manifest.order] `readme` comes before `repository`, in the workspace
workspace.package = { repository = 1, readme = 1 }
---
BadKind(Readme)
=== [manifest.order] `repository` comes before `rust-version`
workspace.package = { rust-version = 1, repository = 1 }
---
BadKind(Repository)
=== [manifest.order] `rust-version` comes before `version`, in the workspace
workspace.package = { version = 1, rust-version = 1 }
---
BadKind(RustVersion)
=== [package.inherited] authors of the workspace cannot be inherited
workspace.package.authors.workspace = true
---
BadKind(Authors)
=== [package.readme] false, in the workspace
workspace.package.readme = false
---
- workspace( package( readme=false))
=== [package.readme] a path, in the workspace
workspace.package.readme = "r"
---
- workspace( package( readme=r))
=== [dependencies.path] byte 0, in the workspace
workspace.dependencies.a = { path = "\u0000" }
---
BadKind(Path)
=== [workspace.keys] `exclude` that is a text
workspace.exclude = "a"
---
BadKind(Exclude)
=== [package.resolver] 1 in the workspace, 2 in the package
package = { name = "a", resolver = "2" }
workspace.resolver = "1"
---
OldResolver
"#;
