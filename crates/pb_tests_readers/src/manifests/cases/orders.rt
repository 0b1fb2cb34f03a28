//! Manifests with two mistakes: the order in which they are read. A case is a line `=== [RULE]
//! NAME`, a manifest, and after a line `---` the answer.

/// The cases.
pub const ORDERS: &str = r#"=== [manifest.order] an old resolver comes before all tables
package = { name = 1, resolver = "1" }
lib = 1
---
OldResolver
=== [manifest.order] a refused table comes before an old resolver
package = { name = "a", resolver = "1" }
target = 1
---
UnsupportedTable
=== [manifest.order] `[patch]`, with any value
patch = {}
---
UnsupportedTable
=== [manifest.order] `replace`, with any value
replace = []
package.name = "a"
---
UnsupportedTable
=== [manifest.order] `authors` comes before `name`
package = { authors = 1, name = 1 }
---
BadKind(Authors)
=== [manifest.order] `edition` comes before `name`
package = { edition = "x", version = "x" }
---
BadKind(Edition)
=== [manifest.order] an absent `name` comes before `version`
package = { version = "x" }
---
BadName
=== [manifest.order] `links` comes before an absent `name`
package = { links = 1 }
---
BadKind(Links)
=== [manifest.order] an absent `name` comes before `readme`
package = { readme = 1 }
---
BadName
=== [manifest.order] `[package]` comes before `[lib]`
package = {}
lib = 1
---
BadName
=== [manifest.order] `authors` comes before `autobins`
package = { name = "a", autobins = 1, authors = 1 }
---
BadKind(Authors)
=== [manifest.order] `autobins` comes before `build`
package = { name = "a", build = 1, autobins = 1 }
---
BadKind(Autobins)
=== [manifest.order] `build` comes before `description`
package = { name = "a", description = 1, build = 1 }
---
BadKind(Build)
=== [manifest.order] `description` comes before `edition`
package = { name = "a", edition = 1, description = 1 }
---
BadKind(Description)
=== [manifest.order] `edition` comes before `homepage`
package = { name = "a", homepage = 1, edition = 1 }
---
BadKind(Edition)
=== [manifest.order] `homepage` comes before `license`
package = { name = "a", license = 1, homepage = 1 }
---
BadKind(Homepage)
=== [manifest.order] `license` comes before `license-file`
package = { name = "a", license-file = 1, license = 1 }
---
BadKind(License)
=== [manifest.order] `license-file` comes before `links`
package = { name = "a", links = 1, license-file = 1 }
---
BadKind(LicenseFile)
=== [manifest.order] `links` comes before `name`
package = { name = 1, links = 1 }
---
BadKind(Links)
=== [manifest.order] `name` comes before `readme`
package = { readme = 1, name = 1 }
---
BadKind(Name)
=== [manifest.order] `readme` comes before `repository`
package = { name = "a", repository = 1, readme = 1 }
---
BadKind(Readme)
=== [manifest.order] `repository` comes before `resolver`
package = { name = "a", resolver = 1, repository = 1 }
---
BadKind(Repository)
=== [manifest.order] `resolver` comes before `rust-version`
package = { name = "a", rust-version = 1, resolver = 1 }
---
BadKind(Resolver)
=== [manifest.order] `rust-version` comes before `version`
package = { name = "a", version = 1, rust-version = 1 }
---
BadKind(RustVersion)
"#;
