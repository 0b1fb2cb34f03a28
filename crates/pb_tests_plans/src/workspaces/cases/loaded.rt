//! Which packages are read, and where reading ends: cases as in `cases.rt` above.

/// The cases.
pub const LOADED: &str = r#"=== [load.end] a member that is not there
@ /w/Cargo.toml
[workspace]
members = ["m"]
---
NoManifest /w/m/Cargo.toml
=== [load.end] a member without a package
@ /w/Cargo.toml
[workspace]
members = ["m"]
@ /w/m/Cargo.toml
[workspace]
---
Manifest /w/m/Cargo.toml BadKind(Package)
=== [load.end] a dependency on a root without a package
@ /w/Cargo.toml
[workspace]
members = ["m"]
@ /w/m/Cargo.toml
package.name = "m"
dependencies.w = { path = ".." }
---
Manifest /w/Cargo.toml BadKind(Package)
=== [load.root-only] a workspace in a member is not used
@ /w/Cargo.toml
[workspace]
members = ["m"]
package.version = "3.0.0"
@ /w/m/Cargo.toml
[package]
name = "m"
version.workspace = true
[workspace]
members = ["n"]
package.version = "4.0.0"
---
/w/m m 3.0.0 2015
=== [load.end] the first entry with a fault is told
@ /w/Cargo.toml
[workspace]
members = ["m"]
dependencies.r = "1"
@ /w/m/Cargo.toml
package.name = "m"
[dependencies]
s.workspace = true
r.workspace = true
---
Manifest /w/m/Cargo.toml UnsupportedSource
=== [load.members] members are read in byte order
@ /w/Cargo.toml
[workspace]
members = ["b", "a-", "a"]
@ /w/a/Cargo.toml
package.name = "a"
@ /w/a-/Cargo.toml
package.name = "a b"
---
Manifest /w/a-/Cargo.toml BadName
=== [load.root] the root is read first
@ /w/Cargo.toml
package.name = "r"
package.version.workspace = true
[workspace]
members = ["a"]
---
NoInherited
=== [load.dependencies] members before path dependencies
@ /w/Cargo.toml
package.name = "r"
dependencies.a = { path = "a" }
[workspace]
members = ["m"]
@ /w/m/Cargo.toml
x
---
Manifest /w/m/Cargo.toml NotToml
=== [load.dependencies] one round before the next
@ /w/Cargo.toml
package.name = "r"
[dependencies]
a = { path = "../a" }
c = { path = "../c" }
@ /a/Cargo.toml
package.name = "a"
dependencies.b = { path = "../b" }
---
NoManifest /c/Cargo.toml
=== [load.end] a wrong name does not stop the reading
@ /w/Cargo.toml
package.name = "r"
dependencies.a = { path = "../b" }
@ /b/Cargo.toml
package.name = "b"
dependencies.c = { path = "../c" }
---
NoManifest /c/Cargo.toml
=== [load.target-folder] nothing in the target folder is a member
@ /w/Cargo.toml
[workspace]
members = ["*", "target/*"]
@ /w/a/Cargo.toml
package.name = "a"
@ /w/target/Cargo.toml
package.name = "t"
@ /w/target/b/Cargo.toml
package.name = "b"
@ /w/target2/Cargo.toml
package.name = "t2"
---
/w/a a 0.0.0 2015
/w/target2 t2 0.0.0 2015
=== [load.target-folder] a dependency in the target folder
@ /w/Cargo.toml
package.name = "r"
dependencies.t = { path = "target/t" }
@ /w/target/t/Cargo.toml
package.name = "t"
---
NoManifest /w/target/t/Cargo.toml
=== [load.target-folder] a written path in the target folder is used as it is
@ /w/Cargo.toml
package.name = "r"
package.build = "target/b.rs"
lib.path = "target/l.rs"
---
/w r 0.0.0 2015
  lib r /w/target/l.rs Lib
  script /w/target/b.rs
root 0
=== [load.dependencies] packages that depend on each other
@ /w/Cargo.toml
package.name = "a"
dependencies.b = { path = "b" }
dependencies.a = { path = "." }
@ /w/b/Cargo.toml
package.name = "b"
build-dependencies.a = { path = ".." }
---
/w a 0.0.0 2015
  dep a 0
  dep b 1
/w/b b 0.0.0 2015 other
  build-dep a 0
root 0
=== [load.root-only] profiles of the root alone
@ /w/Cargo.toml
package.name = "r"
workspace.members = ["a"]
[profile.release]
opt-level = 1
[profile.dev]
opt-level = 2
@ /w/a/Cargo.toml
package.name = "a"
[profile.bench]
opt-level = 3
---
/w r 0.0.0 2015
/w/a a 0.0.0 2015
root 0
profile dev
profile release
=== [load.end] a wrong profile of a member
@ /w/Cargo.toml
package.name = "r"
workspace.members = ["a"]
@ /w/a/Cargo.toml
package.name = "a"
[profile.debug]
inherits = "dev"
---
Manifest /w/a/Cargo.toml BadProfile
=== [load.end] an old resolver in a member
@ /w/Cargo.toml
workspace.members = ["a"]
@ /w/a/Cargo.toml
package = { name = "a", resolver = "1" }
---
Manifest /w/a/Cargo.toml OldResolver
=== [load.end] a member's table that is not served
@ /w/Cargo.toml
workspace.members = ["a"]
@ /w/a/Cargo.toml
package.name = "a"
[target.x.dependencies]
---
Manifest /w/a/Cargo.toml UnsupportedTable
"#;
