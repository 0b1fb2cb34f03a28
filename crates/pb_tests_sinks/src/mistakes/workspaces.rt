//! Mistakes in how manifests go together, written as in `manifests.rt`.

/// The cases.
pub const CASES: &str = r#"=== [load.root] a typo in a dependency's path
@ /w/Cargo.toml
[workspace]
members = ["app", "util"]
@ /w/app/Cargo.toml
[package]
name = "app"

[dependencies]
util = { path = "../utli" }
@ /w/util/Cargo.toml
[package]
name = "util"
---
note: no manifest can be read at `/w/utli/Cargo.toml`
note: in /w/app/Cargo.toml, line 5, key dependencies.util: it leads to /w/utli/Cargo.toml (near: util)
error: refused NoManifest
=== [members.folder] a missing member
@ /w/Cargo.toml
[workspace]
members = ["app", "gone"]
@ /w/app/Cargo.toml
[package]
name = "app"
---
note: no manifest can be read at `/w/gone/Cargo.toml`
note: in /w/Cargo.toml, line 2, key workspace.members: it names the folder of /w/gone/Cargo.toml
error: refused NoManifest
=== [load.root] outside a workspace
@ /v/Cargo.toml
[package]
name = "a"
---
note: no manifest can be read at `/w/Cargo.toml`
note: this path comes from --manifest-path or from the current folder
error: refused NoManifest
=== [load.root] a folder for a manifest: --manifest-path /w/app
@ /w/app/Cargo.toml
[package]
name = "a"
---
note: no manifest can be read at `/w/app`
note: this path is a folder, which contains /w/app/Cargo.toml
note: this path comes from --manifest-path or from the current folder
error: refused NoManifest
=== [load.checks] another version
@ /w/Cargo.toml
[package]
name = "app"
[dependencies]
util = { path = "util", version = "0.2" }
@ /w/util/Cargo.toml
[package]
name = "util"
version = "0.1.0"
---
note: a dependency leads to a package whose version does not match
note: in /w/Cargo.toml, line 4, key dependencies.util: it asks for util 0.2, and /w/util/Cargo.toml has 0.1.0
error: refused VersionMismatch
=== [load.checks] another name
@ /w/Cargo.toml
[package]
name = "app"
[dependencies]
utils = { path = "util" }
@ /w/util/Cargo.toml
[package]
name = "util"
---
note: a dependency leads to a package with another name
note: in /w/Cargo.toml, line 4, key dependencies.utils: it leads to /w/util/Cargo.toml, whose name is util (package = "util" would keep the key)
error: refused NameMismatch
=== [load.checks] two packages of one name
@ /w/Cargo.toml
[workspace]
members = ["m*"]
exclude = ["m3"]
@ /w/m1/Cargo.toml
[package]
name = "util"
@ /w/m2/Cargo.toml
[package]

name = "util"
@ /w/m3/Cargo.toml
[package]
name = "util"
---
note: two packages have the same name
note: in /w/m1/Cargo.toml, line 2, key package.name: util is in /w/m2/Cargo.toml too
error: refused SameName
=== [load.checks] one native library twice
@ /w/Cargo.toml
[workspace]
members = ["m1", "m2"]
@ /w/m1/Cargo.toml
[package]
name = "m1"
links = "z"
@ /w/m1/build.rs
@ /w/m2/Cargo.toml
[package]
name = "m2"
links = "z"
@ /w/m2/build.rs
---
note: two packages link the same native library
note: in /w/m1/Cargo.toml, line 3, key package.links: z is in /w/m2/Cargo.toml too
error: refused LinksTwice
=== [load.checks] a native library without a script
@ /w/Cargo.toml
[package]
name = "a"
links = "z"
---
note: a package links a native library but has no build script
note: in /w/Cargo.toml, line 3, key package.links: z is linked, but /w/build.rs does not exist
error: refused LinksWithoutScript
=== [inherit.missing] nothing to inherit
@ /w/Cargo.toml
[workspace]
members = ["m"]
@ /w/m/Cargo.toml
[package]
name = "m"
version.workspace = true
[dependencies]
util.workspace = true
---
note: a package inherits a key or an entry that does not exist
note: in /w/m/Cargo.toml, line 3, key package.version: /w/Cargo.toml has no workspace.package.version
note: in /w/m/Cargo.toml, line 5, key dependencies.util: /w/Cargo.toml has no workspace.dependencies.util
error: refused NoInherited
=== [inherit.missing] in a member's folder: --manifest-path /w/m/Cargo.toml
@ /w/Cargo.toml
[workspace]
members = ["m"]
package.version = "0.1.0"
@ /w/m/Cargo.toml
[package]
name = "m"
version.workspace = true
---
note: a package inherits a key or an entry that does not exist
note: /w/m/Cargo.toml has no [workspace]: call pb_tool in the workspace's root, or give --manifest-path
note: in /w/m/Cargo.toml, line 3, key package.version: /w/m/Cargo.toml has no workspace.package.version
note: in /w/Cargo.toml, line 2, key workspace.members: it lists /w/m: call pb_tool in the folder of this manifest, or give --manifest-path /w/Cargo.toml
error: refused NoInherited
=== [load.checks] two binaries of one name
@ /w/Cargo.toml
[package]
name = "a"
[[bin]]
name = "x"
path = "x.rs"
[[bin]]
name = "x"
path = "y.rs"
---
note: a package has two binaries with the same name
note: in /w/Cargo.toml, line 7, key bin[2].name: x is the name of bin[1] too
error: refused SameBinary
=== [select.order] no such package: -p utl
@ /w/Cargo.toml
[workspace]
members = ["util"]
@ /w/util/Cargo.toml
[package]
name = "util"
---
note: a requested package is not a member of the workspace
note: -p names utl (near: util)
error: refused NoSuchPackage
=== [select.default-members] no such default member
@ /w/Cargo.toml
[workspace]
members = ["app"]
default-members = ["ap"]
@ /w/app/Cargo.toml
[package]
name = "app"
---
note: a requested package is not a member of the workspace
note: in /w/Cargo.toml, line 3, key workspace.default-members: ap is not a member's folder (near: app)
error: refused NoSuchPackage
"#;
