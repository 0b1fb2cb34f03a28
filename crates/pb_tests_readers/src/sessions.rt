//! What session files mean, against worked examples.

use crate::wording::reads;
use pb_build_session::{BadSession, Death, PickBy, SessionStep, read_session};
use pb_data::Text;
use pb_place_types::StartFault;
use pb_tests_files::{Shown, holds};
use pb_workspace_types::Options;
use std::alloc::{AllocError, Global};
use std::process::Abort;

/// Puts the texts of an option in words: its name, and each text with a bar after it; nothing if
/// there is none.
fn put_texts(out: &mut Shown, name: &str, texts: &[Text]) {
    if !texts.is_empty() {
        out.put(&[" ", name, "="]);
        out.put_each("", texts, "|");
    }
}

/// Puts the name of an option that is on, with a space before it.
fn put_switch(out: &mut Shown, name: &str, is_on: bool) {
    if is_on {
        out.put(&[" ", name]);
    }
}

/// Puts how many units may be in flight at a time, if this is not one. Puts which unit begins, if
/// this is not the first unit that may begin.
fn put_turns(out: &mut Shown, jobs: u64, pick: &PickBy) {
    if jobs != 1 {
        out.put(&[" jobs="]);
        out.put_number(jobs);
    }
    match pick {
        PickBy::First => {}
        PickBy::Last => out.put(&[" last"]),
    }
}

/// Puts the options of a build in words.
fn put_build(out: &mut Shown, options: &Options, pick: &PickBy) {
    out.put_call("build", options.manifest.as_str(), options.profile.as_str());
    put_switch(out, "workspace", options.workspace);
    put_switch(out, "all_features", options.all_features);
    put_switch(out, "no_default_features", options.no_default_features);
    put_switch(out, "lib", options.lib);
    put_switch(out, "bins", options.bins);
    put_texts(out, "packages", options.packages.as_slice());
    put_texts(out, "features", options.features.as_slice());
    put_texts(out, "bin", options.bin.as_slice());
    put_turns(out, options.jobs, pick);
}

/// Returns how a start fails in words, by what it answers.
fn death_text(death: &Death) -> &'static str {
    match death.fault() {
        StartFault::CannotStart => "cannot start",
        StartFault::Died => "died",
        StartFault::Capture => "capture",
        StartFault::OutOfMemory => "memory",
    }
}

/// Puts a step in words.
fn put_step(out: &mut Shown, step: &SessionStep) {
    match step {
        SessionStep::Write(path, text) => out.put_call("write", path.as_str(), text.as_str()),
        SessionStep::Remove(path) => out.put_call("remove", path.as_str(), ""),
        SessionStep::Set(name, value) => out.put_call("set", name.as_str(), value.as_str()),
        SessionStep::Unset(name) => out.put_call("unset", name.as_str(), ""),
        SessionStep::Build(options, pick) => put_build(out, options, pick),
        SessionStep::Die(key, death) => out.put_call("die", key.as_str(), death_text(death)),
        SessionStep::Fuse(number) => {
            out.put(&["fuse<"]);
            out.put_number(*number);
            out.put(&["><>"]);
        }
    }
}

/// Puts steps in words, each with `;` after it.
fn put_steps(out: &mut Shown, steps: &[SessionStep]) {
    for step in steps {
        put_step(out, step);
        out.put(&[";"]);
    }
}

/// Returns whether a session file means this: its steps in words, or `bad`.
fn says(alloc: Global, session: &[u8], wanted: &str) -> bool {
    let mut shown = Shown::new(alloc);
    match read_session(alloc, session) {
        Ok(steps) => {
            put_steps(&mut shown, steps.as_slice());
            drop(steps);
        }
        Err(BadSession::BadForm) => shown.put(&["bad"]),
        Err(BadSession::OutOfMemory) => shown.put(&["memory"]),
    }
    shown.says(wanted)
}

/// Session files, one on each line, and their steps, or that they are not sessions.
const SESSIONS: &str = r#"[{"write":["/","x"]}] -> write</><x>;
[{"write":["/w/../x//./y/",""]}] -> write</x/y><>;
[{"remove":"/w"}] -> remove</w><>;
[{"remove":"/w/../x/"}] -> remove</x><>;
[{"remove":"/.."}] -> remove</><>;
[{"set":["A=B",""]}] -> set<A=B><>;
[{"unset":""}] -> unset<><>;
[{"build":{}}] -> build</w/Cargo.toml><dev>;
[{"build":{"manifest":"/v/x.toml"}}] -> build</v/x.toml><dev>;
[{"build":{"manifest":"//v/./x"}}] -> build</v/x><dev>;
[{"build":{}},{"remove":"/a"},{"set":["b","c"]}] -> build</w/Cargo.toml><dev>;remove</a><>;set<b><c>;
[{"die":["a.target.lib","CannotStart"]}] -> die<a.target.lib><cannot start>;
[{"die":["a.target.lib","Died"]}] -> die<a.target.lib><died>;
[{"die":["","Capture"]}] -> die<><capture>;
[{"fuse":0}] -> fuse<0><>;
[{"fuse":1}] -> fuse<1><>;
[{"fuse":18446744073709551615}] -> fuse<18446744073709551615><>;
[{"die":["a","Died"]},{"die":["a","Died"]},{"fuse":7},{"build":{"jobs":2}}] -> die<a><died>;die<a><died>;fuse<7><>;build</w/Cargo.toml><dev> jobs=2;
[{"build":{},"build":{"manifest":"/b"}}] -> build</b><dev>;
[{"unset":"a","unset":"b"}] -> unset<b><>;
[{"fuse":1.0,"fuse":2}] -> fuse<2><>;
[ -> bad
{} -> bad
null -> bad
{"build":{}} -> bad
[[]] -> bad
[{}] -> bad
[1] -> bad
[{"build":{}}] x -> bad
[{"build":{},"unset":"a"}] -> bad
[{"Build":{}}] -> bad
[{"fly":{}}] -> bad
[{"build":null}] -> bad
[{"build":[]}] -> bad
[{"build":{"manifest":null}}] -> bad
[{"build":{"manifest":"Cargo.toml"}}] -> bad
[{"build":{"manifest":"/w/\u0000"}}] -> bad
[{"write":"/a"}] -> bad
[{"write":["/a"]}] -> bad
[{"write":["/a","b","c"]}] -> bad
[{"write":["a","b"]}] -> bad
[{"write":["/a",1]}] -> bad
[{"remove":""}] -> bad
[{"remove":["/a"]}] -> bad
[{"set":["a"]}] -> bad
[{"set":["a",true]}] -> bad
[{"unset":["a"]}] -> bad
[{"unset":1}] -> bad
[{"set":"a"}] -> bad
[{"set":["a","b","c"]}] -> bad
[{"set":{"a":"b"}}] -> bad
[{"remove":1}] -> bad
[{"remove":"/\u0000"}] -> bad
[{"write":["/a\u0000","b"]}] -> bad
[{"write":[1,"b"]}] -> bad
[{"write":[]}] -> bad
[{"":{}}] -> bad
[{"build":"/w/Cargo.toml"}] -> bad
[{"build":{"Manifest":"/a"}}] -> bad
[{"build":{"":"/a"}}] -> bad
[null] -> bad
[{"die":"a"}] -> bad
[{"die":[]}] -> bad
[{"die":["a"]}] -> bad
[{"die":["a","X"]}] -> bad
[{"die":["a",""]}] -> bad
[{"die":["a","died"]}] -> bad
[{"die":["a","OutOfMemory"]}] -> bad
[{"die":["a","Died","b"]}] -> bad
[{"die":["Died","a"]}] -> bad
[{"die":[1,"Died"]}] -> bad
[{"die":["a",null]}] -> bad
[{"die":{"a":"Died"}}] -> bad
[{"Die":["a","Died"]}] -> bad
[{"fuse":1.0}] -> bad
[{"fuse":1e1}] -> bad
[{"fuse":1E0}] -> bad
[{"fuse":0.0}] -> bad
[{"fuse":-0}] -> bad
[{"fuse":-1}] -> bad
[{"fuse":01}] -> bad
[{"fuse":+1}] -> bad
[{"fuse":18446744073709551616}] -> bad
[{"fuse":99999999999999999999999}] -> bad
[{"fuse":"1"}] -> bad
[{"fuse":[1]}] -> bad
[{"fuse":null}] -> bad
[{"fuse":true}] -> bad
[{"fuse":1,"build":{}}] -> bad
[{"build":{}},{"write":["a","b"]}] -> bad"#;

/// Session files that a line of `SESSIONS` cannot contain, and their steps.
static ODD_SESSIONS: &[(&str, &str)] = &[
    ("[]", ""),
    (" [ ] ", ""),
    (r#"[{"write":["/w/a.rs","x\n"]}]"#, "write</w/a.rs><x\n>;"),
    (r#"[{"set":["","\u0000"]}]"#, "set<><\0>;"),
    (r#"[{"die":["/\u0000","Died"]}]"#, "die</\0><died>;"),
    ("", "bad"),
];

/// The options of a build, and what they mean, one on each line.
const OPTIONS: &str = r#"{} -> build</w/Cargo.toml><dev>;
{"manifest":"/v/Cargo.toml"} -> build</v/Cargo.toml><dev>;
{"profile":"release"} -> build</w/Cargo.toml><release>;
{"profile":""} -> build</w/Cargo.toml><>;
{"packages":[]} -> build</w/Cargo.toml><dev>;
{"packages":["a"]} -> build</w/Cargo.toml><dev> packages=a|;
{"packages":["b","a","b"]} -> build</w/Cargo.toml><dev> packages=b|a|b|;
{"features":[]} -> build</w/Cargo.toml><dev>;
{"features":["a,b c"]} -> build</w/Cargo.toml><dev> features=a,b c|;
{"features":["x","p/y"]} -> build</w/Cargo.toml><dev> features=x|p/y|;
{"bin":[]} -> build</w/Cargo.toml><dev>;
{"bin":["b","a"]} -> build</w/Cargo.toml><dev> bin=b|a|;
{"workspace":true} -> build</w/Cargo.toml><dev> workspace;
{"workspace":false} -> build</w/Cargo.toml><dev>;
{"all_features":true} -> build</w/Cargo.toml><dev> all_features;
{"all_features":false} -> build</w/Cargo.toml><dev>;
{"no_default_features":true} -> build</w/Cargo.toml><dev> no_default_features;
{"no_default_features":false} -> build</w/Cargo.toml><dev>;
{"lib":true} -> build</w/Cargo.toml><dev> lib;
{"lib":false} -> build</w/Cargo.toml><dev>;
{"bins":true} -> build</w/Cargo.toml><dev> bins;
{"bins":false} -> build</w/Cargo.toml><dev>;
{"pick":"first"} -> build</w/Cargo.toml><dev>;
{"pick":"last"} -> build</w/Cargo.toml><dev> last;
{"jobs":0} -> build</w/Cargo.toml><dev> jobs=0;
{"jobs":1} -> build</w/Cargo.toml><dev>;
{"jobs":18446744073709551615,"pick":"last"} -> build</w/Cargo.toml><dev> jobs=18446744073709551615 last;
{"bin":["x"],"lib":true,"features":["f"],"packages":["p"],"workspace":true} -> build</w/Cargo.toml><dev> workspace lib packages=p| features=f| bin=x|;
{"manifest":["/a"]} -> bad
{"profile":1} -> bad
{"profile":null} -> bad
{"profile":["dev"]} -> bad
{"packages":"a"} -> bad
{"packages":null} -> bad
{"packages":["a",1]} -> bad
{"features":"a"} -> bad
{"features":{"a":"b"}} -> bad
{"features":[true]} -> bad
{"bin":"a"} -> bad
{"bin":true} -> bad
{"bin":[["a"]]} -> bad
{"workspace":1} -> bad
{"workspace":"true"} -> bad
{"workspace":null} -> bad
{"all_features":["a"]} -> bad
{"no_default_features":0} -> bad
{"lib":"lib"} -> bad
{"lib":{}} -> bad
{"bins":["a"]} -> bad
{"pick":"middle"} -> bad
{"pick":""} -> bad
{"pick":"First"} -> bad
{"pick":["first"]} -> bad
{"pick":0} -> bad
{"pick":null} -> bad
{"jobs":"2"} -> bad
{"jobs":1.0} -> bad
{"jobs":1e1} -> bad
{"jobs":-0} -> bad
{"jobs":-1} -> bad
{"jobs":18446744073709551616} -> bad
{"jobs":[2]} -> bad
{"jobs":null} -> bad
{"jobs":true} -> bad
{"target_dir":"/t"} -> bad
{"runner":["mini"]} -> bad
{"tool":"cargo"} -> bad
{"all-features":true} -> bad"#;

/// Returns the two parts of a line.
fn parts_of(line: &str) -> (&str, &str) {
    line.split_once(" -> ").unwrap_or((line, ""))
}

/// Returns whether a session of one build with these options means this.
fn build_says(alloc: Global, options: &str, wanted: &str) -> Result<bool, AllocError> {
    let session = format!(in alloc; "[{{\"build\":{options}}}]")?;
    Ok(says(alloc, session.as_bytes(), wanted))
}

/// Puts what no key of a session changes: the words before a build script, the builder's name, and
/// that no target folder is requested.
fn put_fixed(out: &mut Shown, options: &Options) {
    out.put(&[options.tool.as_str()]);
    put_texts(out, "runner", options.runner.as_slice());
    put_switch(out, "target_dir", options.target_dir.is_some());
}

/// A session of one build.
const FIXED: &[u8] = br#"[{"build":{"profile":"release"}}]"#;

/// Returns whether a session has one step, and this step is a build with these unchanged options.
fn has_fixed(alloc: Global, session: &[u8], wanted: &str) -> Result<bool, BadSession> {
    let steps = read_session(alloc, session)?;
    let mut shown = Shown::new(alloc);
    if let [SessionStep::Build(options, _)] = steps.as_slice() {
        put_fixed(&mut shown, options);
    }
    drop(steps);
    Ok(shown.says(wanted))
}

/// Asserts what each session file means.
fn assert_sessions(rt: &impl Abort, alloc: Global) {
    for line in SESSIONS.lines() {
        let (session, wanted) = parts_of(line);
        assert!(rt; says(alloc, session.as_bytes(), wanted), "{line}");
    }
    for case in ODD_SESSIONS {
        let (session, wanted) = *case;
        assert!(rt; says(alloc, session.as_bytes(), wanted), "{session}");
    }
}

/// Rules: `sessions.files`.
#[test]
fn sessions_and_options(rt: HostRuntime) {
    assert_sessions(&rt, rt.alloc());
    for line in OPTIONS.lines() {
        let (options, wanted) = parts_of(line);
        assert!(rt; holds(build_says(rt.alloc(), options, wanted)), "{line}");
    }
    assert!(rt; holds(has_fixed(rt.alloc(), FIXED, "cargo runner=mini|--run|")));
    assert!(rt; says(rt.alloc(), b"[{\"unset\":\"\xff\"}]", "bad"));
    assert!(rt; reads(rt.alloc(), &BadSession::BadForm, "bad session"));
}
