//! What is found in the folder of a package: cases as in `cases.rt` above.

/// The cases.
pub const FOUND: &str = r#"=== [found.library] a library, a binary, a script and a README are found
@ /w/Cargo.toml
[package]
name = "a"
version = "0.1.0"
edition = "2021"
@ /w/src/lib.rs
@ /w/src/main.rs
@ /w/build.rs
@ /w/README.txt
---
/w a 0.1.0 2021
  readme README.txt
  lib a /w/src/lib.rs Lib
  bin a /w/src/main.rs
  script /w/build.rs
root 0
=== [found.readme] the first README counts
@ /w/Cargo.toml
package.name = "a"
@ /w/README
@ /w/README.md
@ /w/README.txt
---
/w a 0.0.0 2015
  readme README.md
root 0
=== [found.readme] a README that is refused is not looked for
@ /w/Cargo.toml
package = { name = "a", readme = false }
@ /w/README.md
---
/w a 0.0.0 2015
root 0
=== [found.readme] a README that is written need not be there
@ /w/Cargo.toml
package = { name = "a", readme = true }
---
/w a 0.0.0 2015
  readme README.md
root 0
=== [package.texts] words for people
@ /w/Cargo.toml
[package]
name = "a"
authors = ["A", "B <b@b>"]
description = "d"
homepage = "h"
license = "l"
license-file = "lf"
readme = "r"
repository = "p"
rust-version = "1.70"
---
/w a 0.0.0 2015
  authors A:B <b@b>
  description d
  homepage h
  license l
  license-file lf
  readme r
  repository p
  rust-version 1.70
root 0
=== [found.library] a written library need not be there
@ /w/Cargo.toml
package.name = "a"
[lib]
name = "x"
path = "other/x.rs"
crate-type = ["rlib", "lib"]
---
/w a 0.0.0 2015
  lib x /w/other/x.rs Rlib Lib
root 0
=== [found.library] a library's name has no dash
@ /w/Cargo.toml
package.name = "a-b-c"
@ /w/src/lib.rs
---
/w a-b-c 0.0.0 2015
  lib a_b_c /w/src/lib.rs Lib
root 0
=== [found.library] a path out of the folder
@ /w/Cargo.toml
package.name = "a"
lib.path = "../x/lib.rs"
---
/w a 0.0.0 2015
  lib a /x/lib.rs Lib
root 0
=== [found.binaries] binaries are found in two forms
@ /w/Cargo.toml
package.name = "a"
@ /w/src/bin/x.rs
@ /w/src/bin/y/main.rs
@ /w/src/bin/z.txt
@ /w/src/bin/v/other.rs
@ /w/src/bin/u/main.rs/x
@ /w/src/bin/a.b.rs
@ /w/src/bin/.rs
---
/w a 0.0.0 2015
  bin x /w/src/bin/x.rs
  bin y /w/src/bin/y/main.rs
root 0
=== [found.binaries] of two files for one binary the first of the list counts
@ /w/Cargo.toml
package.name = "a"
@ /w/src/main.rs
@ /w/src/bin/a.rs
@ /w/src/bin/x.rs
@ /w/src/bin/x/main.rs
---
/w a 0.0.0 2015
  bin a /w/src/main.rs
  bin x /w/src/bin/x.rs
root 0
=== [found.written-binary] a written binary replaces a found one
@ /w/Cargo.toml
package.name = "a"
[[bin]]
name = "x"
path = "y.rs"
required-features = ["f", "g"]
@ /w/src/bin/x.rs
@ /w/src/main.rs
---
/w a 0.0.0 2015
  bin a /w/src/main.rs
  bin x /w/y.rs f g
root 0
=== [found.written-binary] a written binary without path looks for its file
@ /w/Cargo.toml
[package]
name = "a"
autobins = false
[[bin]]
name = "x"
@ /w/src/bin/x/main.rs
@ /w/src/bin/y.rs
@ /w/src/main.rs
---
/w a 0.0.0 2015
  bin x /w/src/bin/x/main.rs
root 0
=== [found.written-binary] where no file is there the first of the list is its source
@ /w/Cargo.toml
package.name = "a"
[[bin]]
name = "x"
[[bin]]
name = "a"
---
/w a 0.0.0 2015
  bin a /w/src/main.rs
  bin x /w/src/bin/x.rs
root 0
=== [found.written-binary] the binary named as its package looks in the folder of binaries too
@ /w/Cargo.toml
package.name = "a"
package.autobins = false
[[bin]]
name = "a"
@ /w/src/bin/a/main.rs
---
/w a 0.0.0 2015
  bin a /w/src/bin/a/main.rs
root 0
=== [found.written-binary] another binary at the main file leaves the found one
@ /w/Cargo.toml
package.name = "a"
[[bin]]
name = "x"
path = "src/main.rs"
@ /w/src/main.rs
---
/w a 0.0.0 2015
  bin a /w/src/main.rs
  bin x /w/src/main.rs
root 0
=== [found.binaries] no binaries are found where that is turned off
@ /w/Cargo.toml
package = { name = "a", autobins = false }
@ /w/src/main.rs
@ /w/src/bin/x.rs
---
/w a 0.0.0 2015
root 0
=== [found.script] no script where that is refused
@ /w/Cargo.toml
package = { name = "a", build = false }
@ /w/build.rs
---
/w a 0.0.0 2015
root 0
=== [found.script] a script that is asked for need not be there
@ /w/Cargo.toml
package = { name = "a", build = true }
---
/w a 0.0.0 2015
  script /w/build.rs
root 0
=== [found.script] a script elsewhere
@ /w/Cargo.toml
package = { name = "a", build = "s/b.rs", links = "z" }
@ /w/build.rs
---
/w a 0.0.0 2015
  links z
  script /w/s/b.rs
root 0
=== [found.features] optional entries make features
@ /w/Cargo.toml
package.name = "a"
[dependencies]
x = { path = "x", optional = true }
y = { path = "y", optional = true }
z = { path = "z", optional = true }
[build-dependencies]
x = { path = "x" }
v = { path = "v", optional = true }
[features]
f = ["dep:y", "x?/g", "f2", "v/g"]
f2 = []
z = []
[dev-dependencies]
t = "1"
x = { path = "nowhere" }
@ /w/x/Cargo.toml
package.name = "x"
@ /w/y/Cargo.toml
package.name = "y"
@ /w/z/Cargo.toml
package.name = "z"
@ /w/v/Cargo.toml
package.name = "v"
---
/w a 0.0.0 2015
  dep x 2 optional
  dep y 3 optional
  dep z 4 optional
  build-dep v 1 optional
  build-dep x 2
  feature f dep:y x?/g f2 v/g
  feature f2
  feature v dep:v
  feature x dep:x
  feature z
  dev t
  dev x
/w/v v 0.0.0 2015 other
/w/x x 0.0.0 2015 other
/w/y y 0.0.0 2015 other
/w/z z 0.0.0 2015 other
root 0
=== [found.features] an optional dependency named default
@ /w/Cargo.toml
package.name = "a"
dependencies.default = { path = "d", optional = true }
@ /w/d/Cargo.toml
package.name = "default"
---
/w a 0.0.0 2015
  dep default 1 optional
  feature default dep:default
/w/d default 0.0.0 2015 other
root 0
"#;
