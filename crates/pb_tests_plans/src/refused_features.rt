//! Features that are refused, or that have no effect: cases as in `resolutions.rt`.

/// The cases.
pub const REFUSED: &str = r#"=== [resolve.refused] naming an entry that is always enabled
@ /w/Cargo.toml
package.name = "a"
[dependencies]
x = { path = "x" }
[features]
f = ["dep:x"]
@ /w/x/Cargo.toml
package.name = "x"
---
- = NotOptional
=== [resolve.refused] an item without its feature
@ /w/Cargo.toml
package.name = "a"
[features]
f = ["g"]
---
- = NoSuchFeature
=== [resolve.refused] a feature of no entry
@ /w/Cargo.toml
package.name = "a"
[features]
f = ["z/f"]
---
- = NoSuchDependency
=== [resolve.refused] a feature of no entry, where it is enabled
@ /w/Cargo.toml
package.name = "a"
[features]
f = ["z?/f"]
---
- = NoSuchDependency
=== [resolve.refused] no entry is named
@ /w/Cargo.toml
package.name = "a"
[features]
f = ["dep:z"]
---
- = NoSuchDependency
=== [resolve.refused] the first wrong item as they are written
@ /w/Cargo.toml
package.name = "a"
[features]
f = ["z/f", "g"]
---
- = NoSuchDependency
=== [resolve.refused] the first wrong item as they are written, the other way round
@ /w/Cargo.toml
package.name = "a"
[features]
f = ["g", "z/f"]
---
- = NoSuchFeature
=== [resolve.refused] the first wrong feature in byte order
@ /w/Cargo.toml
package.name = "a"
[features]
g = ["h"]
f = ["z/f"]
---
- = NoSuchDependency
=== [resolve.refused] the first wrong package in byte order of names, not of folders
@ /w/Cargo.toml
package.name = "b"
[dependencies]
a = { path = "x" }
[features]
f = ["g"]
@ /w/x/Cargo.toml
package.name = "a"
[features]
f = ["z/f"]
---
- = NoSuchDependency
=== [resolve.refused] the items of a package that is off are looked at too, before what is asked for
@ /w/Cargo.toml
package.name = "a"
[dependencies]
x = { path = "x", optional = true }
@ /w/x/Cargo.toml
package.name = "x"
[features]
f = ["dep:z"]
---
- = NoSuchDependency
f:nope = NoSuchDependency
=== [resolve.dev] names of dev-dependencies do nothing
@ /w/Cargo.toml
package.name = "a"
[dev-dependencies]
t = "1"
[features]
f = ["t/g", "dep:t", "t?/g"]
---
- = a.target
f:f = a.target f
f:t = NoSuchFeature
=== [resolve.refused] the package's name is no name of a renamed entry
@ /w/Cargo.toml
package.name = "a"
[dependencies]
y = { path = "x", package = "x" }
[features]
f = ["x/g"]
@ /w/x/Cargo.toml
package.name = "x"
[features]
g = []
---
- = NoSuchDependency
=== [resolve.asked] a feature that a dependency does not have
@ /w/Cargo.toml
package.name = "a"
[dependencies]
x = { path = "x", optional = true, features = ["nope"] }
[features]
f = ["x?/g"]
@ /w/x/Cargo.toml
package.name = "x"
---
- = a.target
f:f = a.target f
f:x = NoSuchFeature
=== [resolve.asked] a feature that is asked of a dependency and is not there
@ /w/Cargo.toml
package.name = "a"
[dependencies]
x = { path = "x", optional = true }
[features]
f = ["x/g"]
h = ["x?/g"]
@ /w/x/Cargo.toml
package.name = "x"
---
- = a.target
f:f = NoSuchFeature
f:h = a.target h
f:h,x = NoSuchFeature
f:x = a.target x >x; x.target
=== [resolve.requested] features of dependencies are not asked for
@ /w/Cargo.toml
package.name = "a"
[dependencies]
x = { path = "x" }
@ /w/x/Cargo.toml
package.name = "x"
[features]
g = []
---
f:x/g = NoSuchFeature
all = a.target >x; x.target
"#;
