//! What members take from their workspace: cases as in `cases.rt` above.

/// The cases.
pub const INHERITED: &str = r#"=== [inherit.missing] nothing to inherit without a workspace
@ /w/Cargo.toml
[package]
name = "a"
version.workspace = true
---
NoInherited
=== [inherit.members] a package that is no member inherits nothing, not from a workspace of its own either
@ /w/Cargo.toml
package.name = "r"
[workspace]
package.version = "3.0.0"
[dependencies]
o = { path = "../o" }
@ /o/Cargo.toml
[package]
name = "o"
version.workspace = true
[workspace]
package.version = "4.0.0"
---
NoInherited
=== [inherit.entry] entries of the workspace that members take
@ /w/Cargo.toml
[workspace]
members = ["m"]
[workspace.dependencies]
d1 = { path = "d1", features = ["f", "g"] }
d2 = { path = "d2", default-features = false }
d3 = { path = "d3", default-features = false, package = "e3" }
d4 = { path = "d1", package = "d1", optional = true }
@ /w/m/Cargo.toml
package.name = "m"
[dependencies]
d1 = { workspace = true, default-features = false, features = ["h", "f"], optional = true }
d2 = { workspace = true }
d3 = { workspace = true, default-features = true, path = "nowhere", version = "9" }
d4 = { workspace = true }
@ /w/d1/Cargo.toml
package.name = "d1"
@ /w/d2/Cargo.toml
package.name = "d2"
@ /w/d3/Cargo.toml
package.name = "e3"
---
/w/d1 d1 0.0.0 2015
/w/d2 d2 0.0.0 2015
/w/d3 e3 0.0.0 2015
/w/m m 0.0.0 2015
  dep d1 0 optional f g h f
  dep d2 1 no-default
  dep d3 2 renamed
  dep d4 0 renamed
  feature d1 dep:d1
=== [inherit.missing] an entry without a path is refused where a member takes it
@ /w/Cargo.toml
[workspace]
members = ["m"]
dependencies.s = "1"
@ /w/m/Cargo.toml
package.name = "m"
dependencies.s.workspace = true
---
Manifest /w/m/Cargo.toml UnsupportedSource
=== [dependencies.shared] and accepted where none does
@ /w/Cargo.toml
[workspace]
members = ["m"]
dependencies.s = "1"
dependencies.t = { path = "t", git = "g" }
@ /w/m/Cargo.toml
package.name = "m"
---
/w/m m 0.0.0 2015
=== [inherit.missing] an entry that the workspace has not
@ /w/Cargo.toml
[workspace]
members = ["m"]
dependencies.t = "1"
@ /w/m/Cargo.toml
package.name = "m"
[dependencies]
s.workspace = true
t.workspace = true
---
NoInherited
=== [inherit.members] keys before entries, and the first table before the second
@ /w/Cargo.toml
[workspace]
members = ["m", "n"]
dependencies.r = "1"
@ /w/m/Cargo.toml
[package]
name = "m"
license.workspace = true
[dependencies]
r.workspace = true
---
NoInherited
=== [inherit.members] the first table before the second
@ /w/Cargo.toml
[workspace]
members = ["m"]
dependencies.r = "1"
@ /w/m/Cargo.toml
package.name = "m"
[dependencies]
r.workspace = true
[build-dependencies]
a.workspace = true
---
Manifest /w/m/Cargo.toml UnsupportedSource
=== [inherit.files] keys that members take, paths from their folder
@ /w/Cargo.toml
[workspace]
members = ["m", "in/n"]
[workspace.package]
authors = ["A"]
description = "d"
edition = "2024"
homepage = "h"
license = "l"
license-file = "LICENSE"
readme = true
repository = "r"
rust-version = "1"
version = "1.0.0-rc.1+b"
@ /w/m/Cargo.toml
[package]
name = "m"
authors.workspace = true
description.workspace = true
edition.workspace = true
homepage.workspace = true
license.workspace = true
license-file.workspace = true
readme.workspace = true
repository.workspace = true
rust-version.workspace = true
version.workspace = true
@ /w/in/n/Cargo.toml
[package]
name = "n"
license-file.workspace = true
@ /w/in/n/README
---
/w/in/n n 0.0.0 2015
  license-file ../../LICENSE
  readme README
/w/m m 1.0.0-rc.1+b 2024
  authors A
  description d
  homepage h
  license l
  license-file ../LICENSE
  readme ../README.md
  repository r
  rust-version 1
=== [inherit.files] a license file that is taken and is the member's folder
@ /w/Cargo.toml
[workspace]
members = ["m", "n"]
package.license-file = "m"
@ /w/m/Cargo.toml
[package]
name = "m"
license-file.workspace = true
@ /w/n/Cargo.toml
[package]
name = "n"
license-file.workspace = true
---
/w/m m 0.0.0 2015
/w/n n 0.0.0 2015
  license-file ../m
=== [inherit.members] the root package takes from its own workspace
@ /w/Cargo.toml
[package]
name = "r"
readme.workspace = true
license-file.workspace = true
[workspace.package]
readme = "doc/r.md"
license-file = "../LICENSE"
---
/w r 0.0.0 2015
  license-file ../LICENSE
  readme doc/r.md
root 0
=== [inherit.files] a README that the workspace refuses
@ /w/Cargo.toml
[package]
name = "r"
readme.workspace = true
[workspace.package]
readme = false
@ /w/README.md
---
/w r 0.0.0 2015
root 0
"#;
