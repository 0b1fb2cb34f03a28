//! Features, written by hand from the rules. A case has manifests, each after a line `@ PATH`, and
//! a line `---`. After this line come requests, each with what is on. In a request, `p:NAME` means
//! `-p`, `f:TEXT` means `--features`, and `-` means nothing. The answer names each package that is
//! on, for the target or for the host. A package has its features, and `>KEY` or `>>KEY` for its
//! enabled entries of the two tables.

/// The cases.
pub const RESOLUTIONS: &str =
    r#"=== [resolve.enabled] the sides of one package have features of their own
@ /w/Cargo.toml
package.name = "r"
[dependencies]
x = { path = "x", features = ["f"] }
[build-dependencies]
x = { path = "x", features = ["g"] }
@ /w/x/Cargo.toml
package.name = "x"
[features]
f = []
g = []
---
- = r.target >x >>x; x.target f; x.host g
=== [resolve.slash] an item of an entry that is enabled, where another feature enables it
@ /w/Cargo.toml
package.name = "p"
[dependencies]
x = { path = "x", optional = true }
[features]
full = ["x?/f"]
withx = ["dep:x"]
@ /w/x/Cargo.toml
package.name = "x"
[features]
f = []
---
- = p.target
f:full = p.target full
f:full,withx = p.target full withx >x; x.target f
f:withx = p.target withx >x; x.target
all = p.target full withx >x; x.target f
f:x = NoSuchFeature
=== [resolve.listed] a ring of features
@ /w/Cargo.toml
package.name = "a"
[features]
f = ["g"]
g = ["f"]
h = ["f"]
---
- = a.target
f:f = a.target f g
f:g = a.target f g
f:h = a.target f g h
=== [resolve.selected] defaults of the selected package
@ /w/Cargo.toml
package.name = "a"
[features]
default = ["f"]
f = []
g = []
---
- = a.target default f
no-default = a.target
no-default; f:g = a.target g
no-default; f:default = a.target default f
f:g = a.target default f g
all = a.target default f g
no-default; all = a.target default f g
=== [found.features] an optional entry makes a feature
@ /w/Cargo.toml
package.name = "a"
[dependencies]
x = { path = "x", optional = true }
[features]
f = ["x"]
@ /w/x/Cargo.toml
package.name = "x"
---
- = a.target
f:x = a.target x >x; x.target
f:f = a.target f x >x; x.target
all = a.target f x >x; x.target
=== [found.features] an entry that is not optional makes none
@ /w/Cargo.toml
package.name = "a"
[dependencies]
x = { path = "x" }
@ /w/x/Cargo.toml
package.name = "x"
---
- = a.target >x; x.target
f:x = NoSuchFeature
=== [resolve.slash] a feature of an optional entry turns on the entry and its feature
@ /w/Cargo.toml
package.name = "a"
[dependencies]
x = { path = "x", optional = true }
[features]
f = ["x/g"]
@ /w/x/Cargo.toml
package.name = "x"
[features]
g = []
---
- = a.target
f:f = a.target f x >x; x.target g
f:x = a.target x >x; x.target
=== [found.features] where the entry is named elsewhere there is no such feature
@ /w/Cargo.toml
package.name = "a"
[dependencies]
x = { path = "x", optional = true }
[features]
f = ["x/g"]
h = ["dep:x"]
@ /w/x/Cargo.toml
package.name = "x"
[features]
g = []
---
f:f = a.target f >x; x.target g
f:h = a.target h >x; x.target
f:x = NoSuchFeature
=== [resolve.slash] a feature of an entry that is always there
@ /w/Cargo.toml
package.name = "a"
[dependencies]
x = { path = "x" }
[features]
f = ["x/g"]
x = []
@ /w/x/Cargo.toml
package.name = "x"
[features]
g = []
---
- = a.target >x; x.target
f:f = a.target f >x; x.target g
f:x = a.target x >x; x.target
=== [found.features] a written feature takes the place of the one that an entry makes
@ /w/Cargo.toml
package.name = "a"
[dependencies]
x = { path = "x", optional = true }
[features]
f = ["x/h"]
g = []
x = ["g"]
@ /w/x/Cargo.toml
package.name = "x"
[features]
h = []
---
f:x = a.target g x
f:f = a.target f g x >x; x.target h
=== [resolve.weak] an item of an entry that is always enabled
@ /w/Cargo.toml
package.name = "a"
[dependencies]
x = { path = "x" }
[features]
f = ["x?/g"]
@ /w/x/Cargo.toml
package.name = "x"
[features]
g = []
---
- = NotOptional
=== [resolve.dep] an entry in both tables, optional in one
@ /w/Cargo.toml
package.name = "a"
[dependencies]
x = { path = "x", optional = true }
[build-dependencies]
x = { path = "x" }
[features]
f = ["x?/g"]
h = ["x/g"]
@ /w/x/Cargo.toml
package.name = "x"
[features]
g = []
---
- = a.target >>x; x.host
f:h = a.target h x >x >>x; x.target g; x.host g
f:x = a.target x >x >>x; x.target; x.host
f:f = a.target f >>x; x.host g
f:f,x = a.target f x >x >>x; x.target g; x.host g
=== [resolve.dep] an entry in both tables, optional in both
@ /w/Cargo.toml
package.name = "a"
[dependencies]
x = { path = "x", optional = true }
[build-dependencies]
x = { path = "x", optional = true, features = ["g"] }
[features]
f = ["dep:x"]
@ /w/x/Cargo.toml
package.name = "x"
[features]
g = []
---
- = a.target
f:f = a.target f >x >>x; x.target; x.host g
=== [resolve.dep] a renamed entry goes by its key
@ /w/Cargo.toml
package.name = "a"
[dependencies]
y = { path = "x", package = "x", optional = true }
[features]
f = ["y/g"]
@ /w/x/Cargo.toml
package.name = "x"
[features]
g = []
---
f:f = a.target f y >y; x.target g
f:y = a.target y >y; x.target
f:x = NoSuchFeature
=== [resolve.enabled] defaults of a dependency, off for one and on for another
@ /w/Cargo.toml
[workspace]
members = ["a", "b"]
exclude = ["x"]
@ /w/a/Cargo.toml
package.name = "a"
[dependencies]
x = { path = "../x", default-features = false }
@ /w/b/Cargo.toml
package.name = "b"
[dependencies]
x = { path = "../x" }
@ /w/x/Cargo.toml
package.name = "x"
[features]
default = ["d"]
d = []
---
p:a = a.target >x; x.target
p:b = b.target >x; x.target d default
- = a.target >x; b.target >x; x.target d default
p:a; no-default = a.target >x; x.target
p:b; no-default = b.target >x; x.target d default
=== [resolve.enabled] defaults on one side alone
@ /w/Cargo.toml
package.name = "a"
[dependencies]
x = { path = "x", default-features = false }
[build-dependencies]
x = { path = "x" }
@ /w/x/Cargo.toml
package.name = "x"
[features]
default = ["d"]
d = []
---
- = a.target >x >>x; x.target; x.host d default
=== [resolve.enabled] defaults that are off and listed
@ /w/Cargo.toml
package.name = "a"
[dependencies]
x = { path = "x", default-features = false, features = ["default"] }
@ /w/x/Cargo.toml
package.name = "x"
[features]
default = ["d"]
d = []
---
- = a.target >x; x.target d default
=== [resolve.selected] asked features of several packages
@ /w/Cargo.toml
[workspace]
members = ["a", "b"]
@ /w/a/Cargo.toml
package.name = "a"
[features]
f = []
g = []
@ /w/b/Cargo.toml
package.name = "b"
[features]
g = []
---
f:f = a.target f; b.target
f:g = a.target g; b.target g
f:a/g = a.target g; b.target
f:a/g,b/g = a.target g; b.target g
f:f g = a.target f g; b.target g
f:,f, ,g, = a.target f g; b.target g
f:f; f:g = a.target f g; b.target g
p:b; f:f = NoSuchFeature
p:b; f:a/f = NoSuchFeature
p:b; f:b/g = b.target g
f:b/f = NoSuchFeature
f:z/f = NoSuchFeature
f:a/f/g = NoSuchFeature
f:nope = NoSuchFeature
f:f,nope = NoSuchFeature
f:dep:x = NoSuchFeature
all = a.target f g; b.target g
all; f:nope = NoSuchFeature
=== [resolve.enabled] what a build dependency needs is made for the host
@ /w/Cargo.toml
package.name = "a"
[build-dependencies]
b = { path = "b" }
@ /w/b/Cargo.toml
package.name = "b"
[dependencies]
c = { path = "../c" }
[build-dependencies]
d = { path = "../d" }
@ /w/c/Cargo.toml
package.name = "c"
@ /w/d/Cargo.toml
package.name = "d"
---
- = a.target >>b; b.host >c >>d; c.host; d.host
=== [resolve.enabled] features lead from package to package
@ /w/Cargo.toml
package.name = "a"
[dependencies]
b = { path = "b", features = ["f"] }
@ /w/b/Cargo.toml
package.name = "b"
[dependencies]
c = { path = "../c" }
[features]
f = ["c/g"]
@ /w/c/Cargo.toml
package.name = "c"
[features]
g = ["h"]
h = []
i = []
---
- = a.target >b; b.target f >c; c.target g h
=== [resolve.weak] an entry that another package turns on later
@ /w/Cargo.toml
[workspace]
members = ["p", "q", "r"]
exclude = ["x"]
@ /w/p/Cargo.toml
package.name = "p"
[dependencies]
x = { path = "../x", optional = true }
[features]
full = ["x?/f"]
withx = ["dep:x"]
@ /w/q/Cargo.toml
package.name = "q"
[dependencies]
p = { path = "../p", features = ["withx"] }
@ /w/r/Cargo.toml
package.name = "r"
[build-dependencies]
p = { path = "../p", features = ["withx"] }
@ /w/x/Cargo.toml
package.name = "x"
[features]
f = []
---
p:p; f:full = p.target full
p:p; p:q; f:full = p.target full withx >x; q.target >p; x.target f
p:p; p:r; f:full = p.target full; p.host withx >x; r.target >>p; x.host
=== [resolve.listed] an optional dependency named default
@ /w/Cargo.toml
package.name = "a"
[dependencies]
default = { path = "x", optional = true }
@ /w/x/Cargo.toml
package.name = "default"
---
- = a.target default >default; default.target
no-default = a.target
=== [resolve.enabled] packages that depend on each other
@ /w/Cargo.toml
package.name = "a"
[dependencies]
b = { path = "b", features = ["f"] }
[features]
g = []
@ /w/b/Cargo.toml
package.name = "b"
[dependencies]
a = { path = "..", features = ["g"] }
[features]
f = []
---
- = a.target g >b; b.target f >a
=== [resolve.enabled] two entries of one package
@ /w/Cargo.toml
package.name = "a"
[dependencies]
y = { path = "x", package = "x", features = ["f"], default-features = false }
z = { path = "x", package = "x", optional = true, features = ["g"] }
@ /w/x/Cargo.toml
package.name = "x"
[features]
default = []
f = []
g = []
---
- = a.target >y; x.target f
f:z = a.target z >y >z; x.target default f g
=== [resolve.enabled] entries of the workspace
@ /w/Cargo.toml
[workspace]
members = ["m"]
exclude = ["x"]
[workspace.dependencies]
x = { path = "x", features = ["f"], default-features = false }
@ /w/m/Cargo.toml
package.name = "m"
[dependencies]
x = { workspace = true, optional = true, features = ["g"] }
[build-dependencies]
x = { workspace = true, default-features = true }
@ /w/x/Cargo.toml
package.name = "x"
[features]
default = []
f = []
g = []
---
- = m.target >>x; x.host default f
f:x = m.target x >x >>x; x.target f g; x.host default f
=== [resolve.mandatory] a package with nothing
@ /w/Cargo.toml
package.name = "a"
---
- = a.target
all = a.target
no-default = a.target
f:default = NoSuchFeature
"#;
