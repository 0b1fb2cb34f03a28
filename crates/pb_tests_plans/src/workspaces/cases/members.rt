//! Which packages are members: cases as in `cases.rt` above.

/// The cases.
pub const MEMBERS: &str =
    r#"=== [members.which] members, an excluded folder, what they depend on: - * e m1 p
@ /w/Cargo.toml
[workspace]
members = ["m*"]
exclude = ["m2", "e"]
[workspace.package]
version = "1.2.3"
@ /w/m1/Cargo.toml
[package]
name = "m1"
version.workspace = true
[dependencies]
p = { path = "../p" }
e = { path = "../e" }
@ /w/m2/Cargo.toml
package.name = "m2"
@ /w/p/Cargo.toml
package.name = "p"
@ /w/e/Cargo.toml
package.name = "e"
---
/w/e e 0.0.0 2015 other
/w/m1 m1 1.2.3 2015
  dep e 0
  dep p 2
/w/p p 0.0.0 2015
- = 1 2
* = 1 2
e = NoSuchPackage
m1 = 1
p = 2
=== [members.folder] a member that is written out is not excluded
@ /w/Cargo.toml
[workspace]
members = ["m"]
exclude = ["m"]
@ /w/m/Cargo.toml
package.name = "m"
---
/w/m m 0.0.0 2015
=== [members.which] what lies below an excluded folder is excluded
@ /w/Cargo.toml
[workspace]
members = ["x/*", "y*"]
exclude = ["x", "y"]
@ /w/x/a/Cargo.toml
package.name = "a"
@ /w/y/Cargo.toml
package.name = "y"
@ /w/yy/Cargo.toml
package.name = "yy"
---
/w/yy yy 0.0.0 2015
=== [members.globs] a star stays within one part
@ /w/Cargo.toml
[workspace]
members = ["*"]
@ /w/a/Cargo.toml
package.name = "a"
@ /w/a/b/Cargo.toml
package.name = "b"
---
/w/a a 0.0.0 2015
=== [members.globs] two stars are as one
@ /w/Cargo.toml
[workspace]
members = ["**"]
@ /w/a/Cargo.toml
package.name = "a"
@ /w/a/b/Cargo.toml
package.name = "b"
---
/w/a a 0.0.0 2015
=== [members.globs] a question mark is one character
@ /w/Cargo.toml
[workspace]
members = ["m?"]
@ /w/m/Cargo.toml
package.name = "m"
@ /w/m1/Cargo.toml
package.name = "m1"
@ /w/m12/Cargo.toml
package.name = "m12"
@ /w/mé/Cargo.toml
package.name = "e"
---
/w/m1 m1 0.0.0 2015
/w/mé e 0.0.0 2015
=== [members.globs] a star before and between
@ /w/Cargo.toml
[workspace]
members = ["*/in/l*b"]
@ /w/a/in/lib/Cargo.toml
package.name = "a"
@ /w/b/in/lb/Cargo.toml
package.name = "b"
@ /w/c/out/lib/Cargo.toml
package.name = "c"
@ /w/d/in/libs/Cargo.toml
package.name = "d"
@ /w/in/lib/Cargo.toml
package.name = "e"
---
/w/a/in/lib a 0.0.0 2015
/w/b/in/lb b 0.0.0 2015
=== [members.globs] a star takes a dot at the front
@ /w/Cargo.toml
[workspace]
members = ["*"]
@ /w/.hidden/Cargo.toml
package.name = "h"
---
/w/.hidden h 0.0.0 2015
=== [members.globs] a folder that a glob means and that has no manifest is skipped
@ /w/Cargo.toml
[workspace]
members = ["m*"]
@ /w/m1/src/lib.rs
@ /w/m2/Cargo.toml
package.name = "m2"
---
/w/m2 m2 0.0.0 2015
=== [members.globs] a glob below a folder
@ /w/Cargo.toml
[workspace]
members = ["crates/*"]
@ /w/crates/a/Cargo.toml
package.name = "a"
@ /w/crates/Cargo.toml
package.name = "c"
@ /w/b/Cargo.toml
package.name = "b"
---
/w/crates/a a 0.0.0 2015
=== [members.globs] a glob out of the root
@ /w/Cargo.toml
[workspace]
members = ["../v/*"]
package.version = "2.0.0"
@ /v/a/Cargo.toml
[package]
name = "a"
version.workspace = true
---
/v/a a 2.0.0 2015
=== [members.globs] a glob with a path of its own
@ /w/Cargo.toml
[workspace]
members = ["/v/*"]
@ /v/a/Cargo.toml
package.name = "a"
---
/v/a a 0.0.0 2015
=== [members.which] a star in `exclude` stands for itself
@ /w/Cargo.toml
[workspace]
members = ["*"]
exclude = ["m*", "n*"]
@ /w/m1/Cargo.toml
package.name = "m1"
@ /w/n*/Cargo.toml
package.name = "n"
---
/w/m1 m1 0.0.0 2015
=== [members.globs] a part with a star that is left again
@ /w/Cargo.toml
[workspace]
members = ["m*/../n"]
@ /w/n/Cargo.toml
package.name = "n"
@ /w/m/Cargo.toml
package.name = "m"
---
/w/n n 0.0.0 2015
=== [members.globs] a bracket stands for itself
@ /w/Cargo.toml
[workspace]
members = ["[a]"]
@ /w/a/Cargo.toml
package.name = "a"
---
NoManifest /w/[a]/Cargo.toml
=== [members.folder] one folder in many spellings
@ /w/Cargo.toml
[workspace]
members = ["./m/", "x/../m", "m*", "/w/m"]
@ /w/m/Cargo.toml
package.name = "m"
---
/w/m m 0.0.0 2015
=== [members.which] a root without a package is no member
@ /w/Cargo.toml
[workspace]
members = ["."]
---
Manifest /w/Cargo.toml BadKind(Package)
=== [members.which] a path dependency inside the root is a member, one outside is none: - * b
@ /w/Cargo.toml
package.name = "r"
[workspace]
[dependencies]
a = { path = "a" }
b = { path = "../b" }
@ /w/a/Cargo.toml
package.name = "a"
@ /b/Cargo.toml
package.name = "b"
---
/b b 0.0.0 2015 other
/w r 0.0.0 2015
  dep a 2
  dep b 0
/w/a a 0.0.0 2015
root 1
- = 1
* = 1 2
b = NoSuchPackage
=== [members.which] also where a package that is no member leads inside
@ /w/Cargo.toml
package.name = "r"
[workspace]
package.version = "3.0.0"
[dependencies]
o = { path = "../o" }
@ /o/Cargo.toml
package.name = "o"
dependencies.i = { path = "/w/i" }
@ /w/i/Cargo.toml
[package]
name = "i"
version.workspace = true
---
/o o 0.0.0 2015 other
  dep i 2
/w r 0.0.0 2015
  dep o 0
/w/i i 3.0.0 2015
root 1
=== [members.which] without a workspace the root package alone is a member: - *
@ /w/Cargo.toml
package.name = "r"
dependencies.a = { path = "a" }
@ /w/a/Cargo.toml
package.name = "a"
---
/w r 0.0.0 2015
  dep a 1
/w/a a 0.0.0 2015 other
root 0
- = 0
* = 0
=== [members.which] a member outside the root
@ /w/Cargo.toml
[workspace]
members = ["../o", "/p/q"]
package.edition = "2018"
@ /o/Cargo.toml
package = { name = "o", edition.workspace = true }
@ /p/q/Cargo.toml
package = { name = "q", edition.workspace = true }
---
/o o 0.0.0 2018
/p/q q 0.0.0 2018
=== [members.which] an excluded dependency inside the root
@ /w/Cargo.toml
package.name = "a"
[workspace]
exclude = ["e"]
[dependencies]
e = { path = "e" }
@ /w/e/Cargo.toml
package.name = "e"
@ /w/e/src/lib.rs
---
/w a 0.0.0 2015
  dep e 1
/w/e e 0.0.0 2015 other
  lib e /w/e/src/lib.rs Lib
root 0
"#;
