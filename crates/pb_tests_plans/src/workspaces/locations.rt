//! Each key of a profile at each location, once with the locations before it and once without.
//! Manifests and questions have the form of `profiles`. Neighbouring locations set each key to
//! values that differ.

/// The cases.
pub const LOCATIONS: &str = r#"=== [settings.locations] each key at each location
workspace = {}
[profile.release]
opt-level = "z"
debug = "full"
debug-assertions = true
overflow-checks = true
lto = "thin"
panic = "abort"
codegen-units = 40
rpath = true
strip = "symbols"
[profile.release.package.a]
opt-level = 1
debug = 1
debug-assertions = false
overflow-checks = false
codegen-units = 10
strip = "debuginfo"
[profile.release.package."*"]
opt-level = 2
debug = "line-tables-only"
debug-assertions = true
overflow-checks = true
codegen-units = 20
strip = true
[profile.release.build-override]
opt-level = "s"
debug = "line-directives-only"
debug-assertions = false
overflow-checks = false
codegen-units = 30
strip = "debuginfo"
[profile.fast]
inherits = "release"
[profile.faster]
inherits = "fast"
---
release a member target = One Limited false false Thin Abort 10 true DebugInfo
release a other target = One Limited false false Thin Abort 10 true DebugInfo
release a member host = One Limited false false Thin Unwind 10 true DebugInfo
release a other host = One Limited false false Thin Unwind 10 true DebugInfo
release b other target = Two LineTablesOnly true true Thin Abort 20 true Symbols
release b other host = Two LineTablesOnly true true Thin Unwind 20 true Symbols
release b member host = Size LineDirectivesOnly false false Thin Unwind 30 true DebugInfo
release b member target = SmallestSize Full true true Thin Abort 40 true Symbols
bench a other host = One Limited false false Thin Unwind 10 true DebugInfo
bench b other target = Two LineTablesOnly true true Thin Abort 20 true Symbols
bench b member host = Size LineDirectivesOnly false false Thin Unwind 30 true DebugInfo
bench b member target = SmallestSize Full true true Thin Abort 40 true Symbols
faster a member target = One Limited false false Thin Abort 10 true DebugInfo
faster b other host = Two LineTablesOnly true true Thin Unwind 20 true Symbols
faster b member host = Size LineDirectivesOnly false false Thin Unwind 30 true DebugInfo
faster b member target = SmallestSize Full true true Thin Abort 40 true Symbols
=== [settings.locations] nothing for other packages
workspace = {}
[profile.release]
opt-level = "z"
debug = "full"
debug-assertions = true
overflow-checks = true
lto = "thin"
panic = "abort"
codegen-units = 40
rpath = true
strip = "symbols"
[profile.release.package.a]
opt-level = 1
debug = 1
debug-assertions = false
overflow-checks = false
codegen-units = 10
strip = "debuginfo"
[profile.release.build-override]
opt-level = "s"
debug = "line-directives-only"
debug-assertions = false
overflow-checks = false
codegen-units = 30
strip = "debuginfo"
[profile.fast]
inherits = "release"
[profile.faster]
inherits = "fast"
---
release b other target = SmallestSize Full true true Thin Abort 40 true Symbols
release b other host = Size LineDirectivesOnly false false Thin Unwind 30 true DebugInfo
bench b other host = Size LineDirectivesOnly false false Thin Unwind 30 true DebugInfo
faster b other target = SmallestSize Full true true Thin Abort 40 true Symbols
=== [settings.locations] nothing for the host
workspace = {}
[profile.release]
opt-level = "z"
debug = "full"
debug-assertions = true
overflow-checks = true
lto = "thin"
panic = "abort"
codegen-units = 40
rpath = true
strip = "symbols"
[profile.release.package.a]
opt-level = 1
debug = 1
debug-assertions = false
overflow-checks = false
codegen-units = 10
strip = "debuginfo"
[profile.release.package."*"]
opt-level = 2
debug = "line-tables-only"
debug-assertions = true
overflow-checks = true
codegen-units = 20
strip = true
[profile.fast]
inherits = "release"
[profile.faster]
inherits = "fast"
---
release b member host = Zero Nothing true true Thin Unwind 256 true Symbols
release b other host = Two LineTablesOnly true true Thin Unwind 20 true Symbols
faster b member host = Zero Nothing true true Thin Unwind 256 true Symbols
=== [settings.locations] the profile alone
workspace = {}
[profile.release]
opt-level = "z"
debug = "full"
debug-assertions = true
overflow-checks = true
lto = "thin"
panic = "abort"
codegen-units = 40
rpath = true
strip = "symbols"
[profile.fast]
inherits = "release"
[profile.faster]
inherits = "fast"
---
release b member host = Zero Nothing true true Thin Unwind 256 true Symbols
release b other host = Zero Nothing true true Thin Unwind 256 true Symbols
release b other target = SmallestSize Full true true Thin Abort 40 true Symbols
bench b member target = SmallestSize Full true true Thin Abort 40 true Symbols
fast b other host = Zero Nothing true true Thin Unwind 256 true Symbols
=== [settings.locations] overrides alone
workspace = {}
[profile.release.package.a]
opt-level = 1
debug = 1
debug-assertions = false
overflow-checks = false
codegen-units = 10
strip = "debuginfo"
[profile.release.package."*"]
opt-level = 2
debug = "line-tables-only"
debug-assertions = true
overflow-checks = true
codegen-units = 20
strip = true
[profile.release.build-override]
opt-level = "s"
debug = "line-directives-only"
debug-assertions = false
overflow-checks = false
codegen-units = 30
strip = "debuginfo"
[profile.fast]
inherits = "release"
[profile.faster]
inherits = "fast"
---
release a member target = One Limited false false ThinLocal Unwind 10 false DebugInfo
release a other host = One Limited false false ThinLocal Unwind 10 false DebugInfo
release b other target = Two LineTablesOnly true true ThinLocal Unwind 20 false Symbols
release b other host = Two LineTablesOnly true true ThinLocal Unwind 20 false Symbols
release b member host = Size LineDirectivesOnly false false ThinLocal Unwind 30 false DebugInfo
release b member target = Three Nothing false false ThinLocal Unwind 16 false Nothing
fast b member target = Three Nothing false false ThinLocal Unwind 16 false Nothing
dev b other host = Zero Nothing true true ThinLocal Unwind 256 false Nothing
=== [settings.line] overrides along a line
workspace = {}
[profile.release.package.a]
opt-level = 1
debug = 1
debug-assertions = false
overflow-checks = false
codegen-units = 10
strip = "debuginfo"
[profile.fast]
inherits = "release"
opt-level = "z"
debug = "full"
debug-assertions = true
overflow-checks = true
lto = "thin"
panic = "abort"
codegen-units = 40
rpath = true
strip = "symbols"
[profile.fast.package."*"]
opt-level = 2
debug = "line-tables-only"
debug-assertions = true
overflow-checks = true
codegen-units = 20
strip = true
[profile.faster]
inherits = "fast"
opt-level = 2
codegen-units = 50
[profile.faster.build-override]
opt-level = "s"
debug = "line-directives-only"
debug-assertions = false
overflow-checks = false
codegen-units = 30
strip = "debuginfo"
---
faster a member target = One Limited false false Thin Abort 10 true DebugInfo
faster a other host = One Limited false false Thin Unwind 10 true DebugInfo
faster b other target = Two LineTablesOnly true true Thin Abort 20 true Symbols
faster b other host = Two LineTablesOnly true true Thin Unwind 20 true Symbols
faster b member host = Size LineDirectivesOnly false false Thin Unwind 30 true DebugInfo
faster b member target = Two Full true true Thin Abort 50 true Symbols
fast a other target = One Limited false false Thin Abort 10 true DebugInfo
fast b member target = SmallestSize Full true true Thin Abort 40 true Symbols
fast b member host = Zero Nothing true true Thin Unwind 256 true Symbols
release a member target = One Limited false false ThinLocal Unwind 10 false DebugInfo
release b other host = Zero Nothing false false ThinLocal Unwind 256 false Nothing
=== [settings.locations] keys at different locations
workspace = {}
[profile.dev]
overflow-checks = false
strip = true
[profile.dev.package.a]
opt-level = 1
[profile.dev.package."*"]
debug = 1
[profile.dev.build-override]
debug-assertions = false
---
dev a other host = One Limited false false ThinLocal Unwind 256 false Symbols
dev a member host = One Nothing false false ThinLocal Unwind 256 false Symbols
dev a other target = One Limited true false ThinLocal Unwind 256 false Symbols
test a member target = One Full true false ThinLocal Unwind 256 false Symbols
test b other target = Zero Limited true false ThinLocal Unwind 256 false Symbols
test b member host = Zero Nothing false false ThinLocal Unwind 256 false Symbols
=== [settings.refused] a circle of three, and a built-in profile that names it
workspace = {}
[profile.x]
inherits = "y"
[profile.y]
inherits = "z"
[profile.z]
inherits = "x"
[profile.to-ring]
inherits = "y"
[profile.release]
inherits = "x"
---
x a member target = InheritsCycle
z a other host = InheritsCycle
to-ring a member host = InheritsCycle
release a member target = Three Nothing false false ThinLocal Unwind 16 false Nothing
bench a member target = Three Nothing false false ThinLocal Unwind 16 false Nothing
"#;
