//! `[features]` (The Cargo Book, Features). A case is a line `=== [RULE] NAME`, a manifest, and
//! after a line `---` the answer.

/// The cases.
pub const FEATURES: &str = r#"=== [features.item] every form of an item, and the letters of names
package.name = "a"
[features]
_ = ["_", "dep:x", "n/f", "n?/f"]
"0_a-b+c.d" = []
---
a 0.0.0 E2015 feature(0_a-b+c.d) feature(_ _ enables x f of n f of n if on)
=== [features.item] a name that begins with a dash
package.name = "a"
features."-a" = 1
---
BadFeature
=== [features.item] an empty name
package.name = "a"
features."" = []
---
BadFeature
=== [features.item] an empty item
package.name = "a"
features.f = [""]
---
BadFeature
=== [features.item] a blank before the slash
package.name = "a"
features.f = ["x y/f"]
---
BadFeature
=== [features.item] `dep:` alone
package.name = "a"
features.f = ["dep:"]
---
BadFeature
=== [features.item] `dep:` with a slash
package.name = "a"
features.f = ["dep:x/f"]
---
BadFeature
=== [features.item] `dep:` with a question mark
package.name = "a"
features.f = ["dep:x?"]
---
BadFeature
=== [features.item] two slashes
package.name = "a"
features.f = ["n/f/g"]
---
BadFeature
=== [features.item] a letter after the question mark
package.name = "a"
features.f = ["n?x/f"]
---
BadFeature
=== [features.item] a question mark without a name
package.name = "a"
features.f = ["?/f"]
---
BadFeature
=== [features.item] nothing after the slash
package.name = "a"
features.f = ["n/"]
---
BadFeature
=== [features.item] a question mark without a slash
package.name = "a"
features.f = ["n?"]
---
BadFeature
=== [manifest.order] a bad item comes before a number
package.name = "a"
features.f = ["a b", 1]
---
BadFeature
=== [manifest.order] a number comes before a bad item
package.name = "a"
features.f = [1, "a b"]
---
BadKind(Features)
=== [manifest.kinds] a feature that is a text
package.name = "a"
features.f = "g"
---
BadKind(Features)
=== [manifest.order] `[features]` comes before `[profile]`
package.name = "a"
features = 1
profile = 1
---
BadKind(Features)
=== [features.item] a name that begins with a plus
package.name = "a"
features."+a" = []
---
BadFeature
=== [features.item] a name that begins with a dot
package.name = "a"
features.".a" = []
---
BadFeature
=== [features.item] a name with a slash
package.name = "a"
features."a/b" = []
---
BadFeature
=== [features.item] a blank after the slash
package.name = "a"
features.f = ["n/f g"]
---
BadFeature
=== [features.item] a dash after the slash
package.name = "a"
features.f = ["n/-f"]
---
BadFeature
=== [features.item] nothing after the question mark and the slash
package.name = "a"
features.f = ["n?/"]
---
BadFeature
=== [features.item] a dot before the slash
package.name = "a"
features.f = ["n.m/f"]
---
BadFeature
=== [features.item] a dot before the question mark
package.name = "a"
features.f = ["n.m?/f"]
---
BadFeature
=== [features.item] a dot after `dep:`
package.name = "a"
features.f = ["dep:x.y"]
---
BadFeature
=== [features.item] a blank before the colon
package.name = "a"
features.f = ["dep :x"]
---
BadFeature
=== [features.item] another word before the colon
package.name = "a"
features.f = ["deps:x"]
---
BadFeature
=== [features.item] a colon alone
package.name = "a"
features.f = [":x"]
---
BadFeature
=== [features.item] a slash alone
package.name = "a"
features.f = ["/f"]
---
BadFeature
=== [manifest.order] the feature whose name comes first is bad
package.name = "a"
features = { g = 1, f = ["-"] }
---
BadFeature
=== [manifest.order] the feature whose name comes first is a number
package.name = "a"
features = { g = ["-"], f = 1 }
---
BadKind(Features)
=== [features.item] an item twice
package.name = "a"
features = { g = ["g", "f", "f"], f = [] }
---
a 0.0.0 E2015 feature(f) feature(g g f f)
"#;
