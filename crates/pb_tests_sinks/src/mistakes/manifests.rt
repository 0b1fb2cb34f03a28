//! Mistakes in one manifest. A case has files, each after a line `@ PATH`, and a line `---`. After
//! this line comes the whole standard error. Words after a colon in the first line are arguments of
//! `pb_tool build`.

/// The cases.
pub const CASES: &str = r#"=== [manifest.order] a comma is missing
@ /w/Cargo.toml
[package]
name = "a"
version = "0.1.0"
authors = ["A" "B"]
---
note: `/w/Cargo.toml` is refused: the manifest is not TOML
note: in /w/Cargo.toml, line 4, column 16: missing comma between array elements, expected `,` or `]`
error: refused NotToml
=== [manifest.order] a key twice
@ /w/Cargo.toml
[package]
name = "a"
version = "0.1.0"

name = "b"
---
note: `/w/Cargo.toml` is refused: the manifest is not TOML
note: in /w/Cargo.toml, line 5, column 1: duplicate key
error: refused NotToml
=== [manifest.kinds] another type in an entry
@ /w/Cargo.toml
[package]
name = "app"
edition = 2021
[dependencies]
util = { path = 3 }
[[bin]]
name = "x"
[[bin]]
name = "y"
path = true
---
note: `/w/Cargo.toml` is refused: `edition` has a value that is not allowed
note: in /w/Cargo.toml, line 3, key package.edition: 2021 is a number; it must be "2015", "2018", "2021" or "2024"
note: in /w/Cargo.toml, line 10, key bin[2].path: true is a truth value; it must be a text
note: in /w/Cargo.toml, line 5, key dependencies.util.path: 3 is a number; it must be a text
error: refused BadKind
=== [package.edition] an edition that is none
@ /w/Cargo.toml
[package]
name = "app"
edition = "2022"
---
note: `/w/Cargo.toml` is refused: `edition` has a value that is not allowed
note: in /w/Cargo.toml, line 3, key package.edition: "2022" is not allowed; it must be "2015", "2018", "2021" or "2024"
error: refused BadKind
=== [dependencies.version] a dependency's version that is a number
@ /w/Cargo.toml
[package]
name = "app"
[dependencies.util]
path = "util"
version = 1
---
note: `/w/Cargo.toml` is refused: `version` has a value that is not allowed
note: in /w/Cargo.toml, line 5, key dependencies.util.version: 1 is a number; it must be a text
error: refused BadKind
=== [package.present] no package
@ /w/Cargo.toml
[dependencies]
---
note: `/w/Cargo.toml` is refused: `package` has a value that is not allowed
note: in /w/Cargo.toml: there is no [package]
error: refused BadKind
=== [package.version] a version of two numbers
@ /w/Cargo.toml
[package]
name = "app"
version = "0.1"
---
note: `/w/Cargo.toml` is refused: a version or a version requirement cannot be read
note: in /w/Cargo.toml, line 3, key package.version: "0.1" has no third number
error: refused BadVersion
=== [dependencies.version] a requirement that is none
@ /w/Cargo.toml
[package]
name = "app"
[dependencies]
util = { path = "util", version = "one" }
---
note: `/w/Cargo.toml` is refused: a version or a version requirement cannot be read
note: in /w/Cargo.toml, line 4, key dependencies.util.version: "one" is not a version requirement; "0.1" is one
error: refused BadVersion
=== [profile.values] an optimization that is none
@ /w/Cargo.toml
[package]
name = "app"
[profile.dev]
opt-level = 5
---
note: `/w/Cargo.toml` is refused: a profile has a name or a value that is not allowed, or has no `inherits`
note: in /w/Cargo.toml, line 4, key profile.dev.opt-level: 5 is not allowed; it must be 0, 1, 2, 3, "s" or "z"
error: refused BadProfile
=== [profile.inherits] a custom profile without inherits
@ /w/Cargo.toml
[package]
name = "app"
[profile.small]
opt-level = "z"
---
note: `/w/Cargo.toml` is refused: a profile has a name or a value that is not allowed, or has no `inherits`
note: in /w/Cargo.toml, line 3, key profile.small: it has no inherits
error: refused BadProfile
=== [package.name] a name with a blank
@ /w/Cargo.toml
[package]
name = "my app"
---
note: `/w/Cargo.toml` is refused: a name is missing or has letters that are not allowed
note: in /w/Cargo.toml, line 2, key package.name: "my app" may contain only ASCII letters, digits, - and _, and must not be empty
error: refused BadName
=== [features.item] a feature with a blank
@ /w/Cargo.toml
[package]
name = "app"
[features]
default = ["a b"]
---
note: `/w/Cargo.toml` is refused: a feature has a name or an item that is not allowed
note: in /w/Cargo.toml, line 4, key features.default: "a b" has none of the forms "F", "dep:N", "N/F", "N?/F"
error: refused BadFeature
=== [dependencies.source] a registry, git, and a path
@ /w/Cargo.toml
[package]
name = "app"
[dependencies]
util = { path = "util" }
serde = "1"
log = { version = "0.4", features = ["std"] }
web = { git = "https://w" }
---
note: `/w/Cargo.toml` is refused: a dependency has a source other than `path`
note: in /w/Cargo.toml, line 6, key dependencies.log: it has no path
note: in /w/Cargo.toml, line 5, key dependencies.serde: it has no path
note: in /w/Cargo.toml, line 7, key dependencies.web: git is not supported
error: refused UnsupportedSource
=== [dependencies.shared] an entry that is taken and has no path
@ /w/Cargo.toml
[workspace]
members = ["m"]
[workspace.dependencies]
serde = "1"
@ /w/m/Cargo.toml
[package]
name = "m"
[dependencies]
serde = { workspace = true }
---
note: `/w/m/Cargo.toml` is refused: a dependency has a source other than `path`
note: in /w/m/Cargo.toml, line 4, key dependencies.serde: it inherits workspace.dependencies.serde of /w/Cargo.toml, which has no path
error: refused UnsupportedSource
=== [dependencies.shared] an entry that is taken and has a path and git
@ /w/Cargo.toml
[workspace]
members = ["m"]
[workspace.dependencies]
web = { path = "web", git = "https://w" }
@ /w/m/Cargo.toml
[package]
name = "m"
[dependencies]
web = { workspace = true }
---
note: `/w/m/Cargo.toml` is refused: a dependency has a source other than `path`
note: in /w/m/Cargo.toml, line 4, key dependencies.web: it inherits workspace.dependencies.web of /w/Cargo.toml, in which git is not supported
error: refused UnsupportedSource
=== [manifest.order] a table for a target
@ /w/Cargo.toml
[package]
name = "app"
[target.'cfg(unix)'.dependencies]
util = { path = "util" }
---
note: `/w/Cargo.toml` is refused: `target`, `patch` and `replace` are not supported
note: in /w/Cargo.toml, line 3, key target: remove this table
error: refused UnsupportedTable
=== [lib.crate-type] a dynamic library
@ /w/Cargo.toml
[package]
name = "app"
[lib]
crate-type = ["lib", "cdylib"]
---
note: `/w/Cargo.toml` is refused: the library has a crate type that is not supported
note: in /w/Cargo.toml, line 4, key lib.crate-type: "cdylib" must be "lib", "rlib" or "bin"
error: refused UnsupportedCrateType
=== [lib.proc-macro] a proc macro
@ /w/Cargo.toml
package = { name = "app" }
lib = { proc-macro = true }
---
note: `/w/Cargo.toml` is refused: the library has a crate type that is not supported
note: in /w/Cargo.toml, line 2, key lib.proc-macro: proc macros are not supported
error: refused UnsupportedCrateType
=== [package.resolver] an old resolver
@ /w/Cargo.toml
[workspace]
members = ["m"]
resolver = "1"
---
note: `/w/Cargo.toml` is refused: resolver 1 is not supported
note: in /w/Cargo.toml, line 3, key workspace.resolver: it must be "2" or "3"
error: refused OldResolver
"#;
