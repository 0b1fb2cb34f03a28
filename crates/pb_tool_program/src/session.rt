//! The session program.

ghost use Rattle.std.specs.Prelude.{◌≡◌, ◌⊎◌, ◌++◌, Err, IfOk, IfErr, OnOk, OnErr, true, false, string_bytes};
ghost use Rattle.pb_build_session.specs.Sessions.{session_of};
ghost use Rattle.pb_build_session.specs.declared.fault.BadSession.TheVariants.{BadForm};
ghost use Rattle.pb_tool_program.specs.Session.{Refused, SessionStopped, SessionWritten, lines_of};
ghost use Rattle.pb_tool_program.specs.Writing.{Writes};

use pb_build::session;
use pb_build_result::{BuildFault, Summary, result_line};
use pb_build_session::{BadSession, read_session};
use pb_mini::Mini;
use pb_place::Memory;
use pb_place_types::{Out, write_all};
use std::alloc::{AllocError, Global};

/// Writes that a session is bad, and returns the status for it.
pub fn refuse<E: Out>(err: &mut E) -> u8
    ensures status { result ≡ 1 }
    ensures told { Refused (E.heard err.old) (E.heard err.new) }
{
    let _ = write_all(err, b"error: bad session\n");
    1
}

/// Returns the result lines of builds, each followed by a line feed.
fn result_lines(
    alloc: Global,
    answers: &[Result<Summary, BuildFault>],
) -> Result<String, AllocError>
    ensures { IfOk result (λ lines. string_bytes lines ≡ lines_of answers.now) }
{
    let mut lines = String::new(alloc);
    for answer in answers {
        let line = result_line(alloc, answer)?;
        lines.push_str(line.as_str())?;
        lines.push_str("\n")?;
    }
    Ok(lines)
}

/// Writes the result lines of builds, and returns whether the sink took them.
///
/// Errors: only out of memory, before anything is written.
pub fn write_results<O: Out>(
    alloc: Global,
    answers: &[Result<Summary, BuildFault>],
    out: &mut O,
) -> Result<bool, AllocError>
    ensures written { IfOk result (λ whole.
        Writes whole (lines_of answers.now) (O.heard out.old) (O.heard out.new)) }
    ensures memory { OnErr result (out.new ≡ out.old) }
{
    let lines = result_lines(alloc, answers)?;
    Ok(write_all(out, lines.as_bytes()))
}

/// Runs a session and writes its lines. Returns whether all result lines were written.
fn carry_out<O: Out>(alloc: Global, bytes: &[u8], out: &mut O) -> Result<bool, BadSession>
    ensures written { IfOk result (λ whole.
        SessionWritten whole bytes.now (O.heard out.old) (O.heard out.new)) }
    ensures stopped { OnErr result (SessionStopped bytes.now (O.heard out.old) (O.heard out.new)) }
    ensures bad { IfErr result (λ e. e ≡ BadForm → session_of bytes.now ≡ Err BadForm) }
    ensures untouched { session_of bytes.now ≡ Err BadForm → out.new ≡ out.old }
{
    let steps = read_session(alloc, bytes)?;
    let mut memory = Memory::new(alloc, Mini);
    let answers = session(alloc, &mut memory, out, steps.as_slice())?;
    let written = write_results(alloc, answers.as_slice(), out)?;
    Ok(written)
}

/// Runs a session, and returns the exit status. The session is read from bytes and run in memory
/// with the small compiler as its child. All message lines of the session's builds are written to
/// `out`, and then one result line for each build, followed by a line feed.
///
/// The status is 0, or 1 with `error: bad session` and a line feed on `err`. The status is 1 if:
///
/// - the bytes are not a session; then nothing is run and nothing is written to `out`;
/// - memory runs out outside a build;
/// - a result line cannot be written.
///
/// If the status is 1, `out` has the session's first lines, as far as the session was run and the
/// sink took the lines. A build that is refused or fails does not make a session bad: the build's
/// result line reports how the build ended.
pub fn run_session<O: Out, E: Out>(alloc: Global, bytes: &[u8], out: &mut O, err: &mut E) -> u8
    ensures status { (result ≡ 0) ⊎ (result ≡ 1) }
    ensures written { result ≡ 0 →
        SessionWritten true bytes.now (O.heard out.old) (O.heard out.new) }
    ensures cut { result ≡ 1 → SessionStopped bytes.now (O.heard out.old) (O.heard out.new)
        ⊎ SessionWritten false bytes.now (O.heard out.old) (O.heard out.new) }
    ensures untouched { session_of bytes.now ≡ Err BadForm → out.new ≡ out.old }
    ensures quiet { result ≡ 0 → err.new ≡ err.old }
    ensures told { result ≡ 1 → Refused (E.heard err.old) (E.heard err.new) }
{
    match carry_out(alloc, bytes, out) {
        Ok(true) => 0,
        Ok(false) => refuse(err),
        Err(_) => refuse(err),
    }
}
