//! Sessions over sinks that take all, a little at a time, or fail.

ghost use Rattle.std.specs.Prelude.{◌≤◌, length};

use pb_place_types::Over;
use pb_tool_program::run_session;
use std::alloc::Global;
use std::io::{self, Write};
use std::test::Fail;

/// A writer that takes at most `most` bytes of each write, and `room` bytes in all. Afterwards it
/// takes nothing. If it heals, one write fails instead, and later writes are taken again.
#[derive(Drop)]
struct Narrow {
    taken: Vec<u8>,
    most: usize,
    room: usize,
    heals: bool,
}

impl Write for Narrow {
    fn write(&mut self, buf: &[u8]) -> io::Result<usize> {
        if self.room == 0 {
            if !self.heals {
                return Ok(0);
            }
            self.room = usize::MAX;
            return Err(io::Error::from(io::ErrorKind::TimedOut));
        }
        let count = buf.len().min(self.most).min(self.room);
        self.taken.extend_from_slice(&buf[..count])?;
        self.room = self.room.saturating_sub(count);
        Ok(count)
    }

    fn flush(&mut self) -> io::Result<()> {
        Ok(())
    }
}

/// Returns a writer that has taken nothing yet.
fn writer_of(alloc: Global, most: usize, room: usize, heals: bool) -> Narrow {
    Narrow {
        taken: Vec::new(alloc),
        most,
        room,
        heals,
    }
}

/// Returns whether a session over such a writer ends with this status and writes these bytes. If
/// the status is not 0, the session must report that it is bad.
fn gives(alloc: Global, session: &str, mut writer: Narrow, status: u8, bytes: &[u8]) -> bool {
    let mut said = Vec::new(alloc);
    let answer = run_session(
        alloc,
        session.as_bytes(),
        &mut Over::new(&mut writer),
        &mut Over::new(&mut said),
    );
    let told = said.as_slice() == b"error: bad session\n".as_slice();
    let quiet = said.is_empty();
    answer == status && (if status == 0 { quiet } else { told }) && writer.taken.as_slice() == bytes
}

/// Returns what a build writes if its sink fails once after these bytes of the message lines. The
/// build's result line follows.
fn broken_off(alloc: Global, messages: &[u8]) -> Result<Vec<u8>, Fail> {
    let mut bytes = Vec::from_slice(alloc, messages)?;
    bytes.extend_from_slice(b"fault sink Sink\n")?;
    Ok(bytes)
}

/// Returns whether a session is right over a writer that fails after this number of bytes, for good
/// or once. The first `messages` printed bytes are the message lines.
fn is_right_at(
    alloc: Global,
    session: &str,
    printed: &[u8],
    messages: usize,
    room: usize,
    heals: bool,
) -> Result<bool, Fail>
    requires { room ≤ length printed.now }
{
    let first = &printed[..room];
    if heals && room < messages {
        let bytes = broken_off(alloc, first)?;
        let writer = writer_of(alloc, usize::MAX, room, true);
        return Ok(gives(alloc, session, writer, 0, bytes.as_slice()));
    }
    let writer = writer_of(alloc, usize::MAX, room, heals);
    Ok(gives(alloc, session, writer, 1, first))
}

/// Runs a session over writers that fail after each number of bytes, for good and once. The first
/// `messages` bytes are the message lines; the result lines follow. Returns the first number that
/// goes wrong.
fn wrong_byte(
    alloc: Global,
    session: &str,
    printed: &[u8],
    messages: usize,
) -> Result<Option<usize>, Fail> {
    for room in 0..printed.len() {
        if !is_right_at(alloc, session, printed, messages, room, false)?
            || !is_right_at(alloc, session, printed, messages, room, true)?
        {
            return Ok(Some(room));
        }
    }
    Ok(None)
}

/// Runs a session over writers that take everything, a limited number of bytes at a time. Returns
/// the first limit that goes wrong.
fn wrong_most(alloc: Global, session: &str, printed: &[u8]) -> Option<usize> {
    for most in [usize::MAX, 7, 1] {
        let writer = writer_of(alloc, most, printed.len(), false);
        if !gives(alloc, session, writer, 0, printed) {
            return Some(most);
        }
    }
    None
}

/// A build that is refused.
const REFUSED: &str = r#"[{"build":{}}]"#;

/// A library.
const LIBRARY: &str =
    r#"[{"write":["/w/Cargo.toml","[package]\nname = \"a\"\nversion = \"0.1.0\"\nedition = \"2021\"\n"]},{"write":["/w/src/lib.rs",""]},{"build":{}}]"#;

const LIBRARY_LINES: &str =
    r#"{"reason":"compiler-artifact","package_id":"path+file:///w#a@0.1.0","manifest_path":"/w/Cargo.toml","target":{"kind":["lib"],"crate_types":["lib"],"name":"a","src_path":"/w/src/lib.rs","edition":"2021"},"profile":{"opt_level":"0","debuginfo":2,"debug_assertions":true,"overflow_checks":true,"test":false},"features":[],"filenames":["/w/target/debug/a.target.lib/liba.rlib"],"executable":null,"fresh":false}
{"reason":"build-finished","success":true}
"#;

/// A library with an error.
const BROKEN: &str =
    r#"[{"write":["/w/Cargo.toml","[package]\nname = \"a\"\nversion = \"0.1.0\"\nedition = \"2021\"\n"]},{"write":["/w/src/lib.rs","fail no\n"]},{"build":{}}]"#;

const BROKEN_LINES: &str =
    r#"{"reason":"compiler-message","package_id":"path+file:///w#a@0.1.0","manifest_path":"/w/Cargo.toml","target":{"kind":["lib"],"crate_types":["lib"],"name":"a","src_path":"/w/src/lib.rs","edition":"2021"},"message":{"level":"error","message":"no","line":1}}
{"reason":"build-finished","success":false}
"#;

/// Sessions of one build, its message lines, and its result line.
const SESSIONS: &[(&str, &str, &str)] = &[
    (REFUSED, "", "refused NoManifest\n"),
    (LIBRARY, LIBRARY_LINES, "ok started=a.target.lib\n"),
    (
        BROKEN,
        BROKEN_LINES,
        "bad a.target.lib Status(1) started=a.target.lib\n",
    ),
];

/// Returns the message lines of a build, and then its result line.
fn lines_of(alloc: Global, messages: &str, last: &str) -> Result<Vec<u8>, Fail> {
    let mut printed = Vec::from_slice(alloc, messages.as_bytes())?;
    printed.extend_from_slice(last.as_bytes())?;
    Ok(printed)
}

/// Rules: `sinks.take`, `build.finish`.
#[test]
fn sinks_at_each_byte(rt: HostRuntime) -> Result<(), Fail> {
    let alloc = rt.alloc();
    for case in SESSIONS {
        let (session, messages, last) = *case;
        let printed = lines_of(alloc, messages, last)?;
        let most = wrong_most(alloc, session, printed.as_slice());
        assert!(rt; most.is_none(), "{session} by {most:?}");
        let wrong = wrong_byte(alloc, session, printed.as_slice(), messages.len())?;
        assert!(rt; wrong.is_none(), "{session} at {wrong:?}");
    }
    Ok(())
}

/// A library, which is built twice.
const TWICE: &str =
    r#"[{"write":["/w/Cargo.toml","[package]\nname = \"a\"\nversion = \"0.1.0\"\nedition = \"2021\"\n"]},{"write":["/w/src/lib.rs",""]},{"build":{}},{"build":{}}]"#;

/// The message lines of its second build.
const FRESH_LINES: &str =
    r#"{"reason":"compiler-artifact","package_id":"path+file:///w#a@0.1.0","manifest_path":"/w/Cargo.toml","target":{"kind":["lib"],"crate_types":["lib"],"name":"a","src_path":"/w/src/lib.rs","edition":"2021"},"profile":{"opt_level":"0","debuginfo":2,"debug_assertions":true,"overflow_checks":true,"test":false},"features":[],"filenames":["/w/target/debug/a.target.lib/liba.rlib"],"executable":null,"fresh":true}
{"reason":"build-finished","success":true}
"#;

/// Returns whether the second of two builds starts nothing and writes everything. The sink of the
/// first build fails once after these message bytes.
fn is_mended(alloc: Global, first: &[u8]) -> Result<bool, Fail> {
    let mut bytes = Vec::from_slice(alloc, first)?;
    bytes.extend_from_slice(FRESH_LINES.as_bytes())?;
    bytes.extend_from_slice(b"fault sink Sink\nok started=-\n")?;
    let writer = writer_of(alloc, usize::MAX, first.len(), true);
    Ok(gives(alloc, TWICE, writer, 0, bytes.as_slice()))
}

/// Lets a sink fail once, after each number of message bytes. Returns the first number for which
/// the next build is not right, if there is such a number.
fn wrong_after(alloc: Global, messages: &[u8]) -> Result<Option<usize>, Fail> {
    for room in 0..messages.len() {
        if !is_mended(alloc, &messages[..room])? {
            return Ok(Some(room));
        }
    }
    Ok(None)
}

/// Rules: `build.faults`.
#[test]
fn builds_after_sinks_that_fail(rt: HostRuntime) -> Result<(), Fail> {
    let wrong = wrong_after(rt.alloc(), LIBRARY_LINES.as_bytes())?;
    assert!(rt; wrong.is_none(), "at {wrong:?}");
    Ok(())
}
