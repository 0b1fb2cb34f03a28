//! Lines that are wanted, one after another.

/// The lines.
pub const WANTED: &str =
    r#"{"reason":"compiler-artifact","package_id":"path+file:///w#a@0.1.0","manifest_path":"/w/Cargo.toml","target":{"kind":["lib"],"crate_types":["lib"],"name":"a","src_path":"/w/src/lib.rs","edition":"2021"},"profile":{"opt_level":"0","debuginfo":2,"debug_assertions":true,"overflow_checks":true,"test":false},"features":[],"filenames":["/w/target/debug/a.target.lib/liba.rlib"],"executable":null,"fresh":false}
{"reason":"compiler-artifact","package_id":"path+file:///w/a#0.1.0","manifest_path":"/w/a/Cargo.toml","target":{"kind":["rlib","lib"],"crate_types":["rlib","lib"],"name":"a","src_path":"/w/src/lib.rs","edition":"2021"},"profile":{"opt_level":"z","debuginfo":"line-tables-only","debug_assertions":true,"overflow_checks":true,"test":false},"features":["f","g"],"filenames":["/t/liba.rlib"],"executable":null,"fresh":true}
{"reason":"compiler-message","package_id":"path+file:///w/a#0.1.0","manifest_path":"/w/a/Cargo.toml","target":{"kind":["rlib","lib"],"crate_types":["rlib","lib"],"name":"a","src_path":"/w/src/lib.rs","edition":"2021"},"message":{"level": "warning"}}
{"reason":"compiler-artifact","package_id":"path+file:///w/x-a#a@0.1.0","manifest_path":"/w/x-a/Cargo.toml","target":{"kind":["bin"],"crate_types":["bin"],"name":"go-on","src_path":"/w/src/bin/go-on.rs","edition":"2018","required-features":["f"]},"profile":{"opt_level":"3","debuginfo":1,"debug_assertions":true,"overflow_checks":true,"test":false},"features":[],"filenames":["/t/go_on"],"executable":"/t/go_on","fresh":false}
{"reason":"compiler-artifact","package_id":"path+file:///w#a@0.1.0","manifest_path":"/w/Cargo.toml","target":{"kind":["custom-build"],"crate_types":["bin"],"name":"build-script-build","src_path":"/w/build.rs","edition":"2015"},"profile":{"opt_level":"s","debuginfo":0,"debug_assertions":true,"overflow_checks":true,"test":false},"features":[],"filenames":["/t/build_script_build"],"executable":null,"fresh":false}
{"reason":"build-script-executed","package_id":"path+file:///w#a@0.1.0","linked_libs":[],"linked_paths":[],"cfgs":[],"env":[],"out_dir":"/w/target/debug/a.target.run"}
{"reason":"build-script-executed","package_id":"path+file:///w#a@0.1.0","linked_libs":["z","y"],"linked_paths":["z","y"],"cfgs":["z","y"],"env":[["A","\"\\/\b\f\n\r\t\u0001é"],["B",""]],"out_dir":"/w/target/debug/a.target.run"}
{"reason":"build-script-note","package_id":"path+file:///w#a@0.1.0","level":"warning","text":"w"}
{"reason":"build-script-note","package_id":"path+file:///w#a@0.1.0","level":"error","text":"e \"q\""}
{"reason":"build-finished","success":true}
{"reason":"build-finished","success":false}
"#;
