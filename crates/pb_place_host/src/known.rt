//! What the machine remembers of the calls and the children that failed.

ghost use Rattle.std.specs.Prelude.{◌≡◌, ◌≢◌, ◌⊎◌, IfErr, Err};
ghost use Rattle.std.specs.IoError.{error_kind};
ghost use Rattle.pb_place_host.specs.Reports.{AreReported};

use crate::failed::{Failed, reason_of};
use crate::report::Report;
use crate::starting::end_of;
use pb_data::Text;
use pb_place_types::{Command, Ended, PathText, PlaceFault, StartFault, ViewFault};
use std::alloc::{AllocError, Global};
use std::io;
use std::io::ErrorKind;
use std::os::unix::process::ExitStatusExt;
use std::process::Output;

/// The key of a child without an output folder.
const QUERY: &str = "-vV";

/// The greatest number of bytes of a child's standard error that are read for a report.
const MOST_BYTES: usize = 4096;

/// A child that did not answer.
#[derive(Drop)]
struct FailedChild {
    /// The name of the child's output folder, or `-vV` if the child has no output folder.
    key: Text,
    /// What is known of the child.
    report: Report,
}

/// What a place remembers of the calls and the children that failed.
#[derive(Drop)]
pub(crate) struct Known {
    /// The last call on files or variables that failed.
    call: Report,
    /// The children that did not answer.
    children: Vec<FailedChild>,
    /// The answer of the last child without an output folder.
    query: Report,
    /// The links of the last child that lead out of the target folder.
    links: Report,
}

impl Known {
    /// Returns what is known before the first call. The function uses no memory.
    pub(crate) fn new(alloc: Global) -> Known {
        Known {
            call: Report::new(alloc),
            children: Vec::new(alloc),
            query: Report::new(alloc),
            links: Report::new(alloc),
        }
    }

    /// Returns what is known of the last call that failed.
    pub(crate) fn call(&self) -> &[Text]
        ensures { AreReported result.now }
    {
        self.call.texts()
    }

    /// Returns what is known of a child that did not answer.
    pub(crate) fn child(&self, key: &str) -> &[Text]
        ensures { AreReported result.now }
    {
        for child in self.children.as_slice() {
            if child.key.as_str() == key {
                return child.report.texts();
            }
        }
        &[]
    }

    /// Returns how the last child without an output folder answered.
    pub(crate) fn query(&self) -> &[Text]
        ensures { AreReported result.now }
    {
        self.query.texts()
    }

    /// Returns which links of the last child lead out of the target folder.
    pub(crate) fn links(&self) -> &[Text]
        ensures { AreReported result.now }
    {
        self.links.texts()
    }

    /// Remembers which links of the last child lead out of the target folder.
    pub(crate) fn set_links(&mut self, links: Report) {
        self.links = links;
    }

    /// Remembers what is known of a child that did not answer, if memory does not run out.
    fn add_child(&mut self, alloc: Global, key: &str, report: Report) {
        if let Ok(key) = Text::from_str(alloc, key) {
            let _ = self.children.push(FailedChild { key, report });
        }
    }
}

/// Returns a report of one text. If memory ran out for the text, the report is empty.
fn report_of(alloc: Global, text: Result<String, AllocError>) -> Report {
    let mut report = Report::new(alloc);
    if let Ok(text) = text {
        report.say(alloc, text.as_str());
    }
    report
}

/// Returns the key of a child.
fn key_of(command: &Command) -> &str {
    match &command.out {
        Some(out) => out.last_part(),
        None => QUERY,
    }
}

/// Returns the verb for the kind of call that fails with this fault.
fn verb_of(own: PlaceFault) -> &'static str {
    match own {
        PlaceFault::Read => "read",
        PlaceFault::List => "list",
        PlaceFault::Write => "write",
        PlaceFault::Remove => "remove",
        PlaceFault::Variable => "read the variable",
        PlaceFault::OutOfMemory => "make room for",
    }
}

/// Returns the text for a call that failed: `cannot VERB PATH: REASON`.
///
/// Errors: out of memory.
fn call_text(
    alloc: Global,
    path: &PathText,
    own: PlaceFault,
    failed: &Failed,
) -> Result<String, AllocError> {
    let reason = reason_of(alloc, &failed.error)?;
    let verb = verb_of(own);
    let path = match &failed.path {
        Some(inner) => inner.as_str(),
        None => path.as_str(),
    };
    format!(in alloc; "cannot {verb} {path}: {}", reason.as_str())
}

/// Returns the result of a call on a path, and remembers the call if it failed. If memory ran out,
/// the fault is `OutOfMemory`. Any other failure becomes the call's own fault.
pub(crate) fn note_answer<T>(
    alloc: Global,
    known: &mut Known,
    path: &PathText,
    own: PlaceFault,
    answer: Result<T, Failed>,
) -> Result<T, PlaceFault>
    ensures own { IfErr result (λ e. e ≢ PlaceFault.OutOfMemory → e ≡ own) }
    ensures memory { IfErr answer (λ failed. error_kind failed.error ≡ ErrorKind.OutOfMemory
        → result ≡ Err PlaceFault.OutOfMemory) }
{
    match answer {
        Ok(found) => Ok(found),
        Err(failed) if failed.is_memory() => Err(PlaceFault::OutOfMemory),
        Err(failed) => {
            known.call = report_of(alloc, call_text(alloc, path, own, &failed));
            Err(own)
        }
    }
}

/// Returns the text for a variable that could not be read.
///
/// Errors: out of memory.
fn variable_text(alloc: Global, name: &str) -> Result<String, AllocError> {
    format!(in alloc; "cannot read the variable {name}: its value is not UTF-8")
}

/// Returns the result of a call on a variable, and remembers the call if it failed.
pub(crate) fn answered_variable(
    alloc: Global,
    known: &mut Known,
    name: &str,
    answer: Result<Option<Text>, ViewFault>,
) -> Result<Option<Text>, PlaceFault>
    ensures own { IfErr result (λ e. e ≢ PlaceFault.OutOfMemory → e ≡ PlaceFault.Variable) }
    ensures memory { answer ≡ Err ViewFault.OutOfMemory → result ≡ Err PlaceFault.OutOfMemory }
{
    match answer {
        Ok(found) => Ok(found),
        Err(ViewFault::Failed) => {
            known.call = report_of(alloc, variable_text(alloc, name));
            Err(PlaceFault::Variable)
        }
        Err(ViewFault::OutOfMemory) => Err(PlaceFault::OutOfMemory),
    }
}

/// Returns the text for a child that could not be started, or whose output folder could not be
/// made.
///
/// Errors: out of memory.
fn start_text(alloc: Global, command: &Command, failed: &Failed) -> Result<String, AllocError> {
    let reason = reason_of(alloc, &failed.error)?;
    if let Some(out) = &failed.path {
        return format!(in alloc;
            "cannot make the folder {}: {}",
            out.as_str(),
            reason.as_str()
        );
    }
    let program = command.program.as_str();
    let folder = command.folder.as_str();
    format!(in alloc; "cannot start {program} in {folder}: {}", reason.as_str())
}

/// Adds the output folder of a child that could not be started, if the child has an output folder
/// and the folder was made.
fn add_out(alloc: Global, report: &mut Report, command: &Command, failed: &Failed) {
    if failed.path.is_some() {
        return;
    }
    if let Some(out) = &command.out {
        if let Ok(text) = format!(in alloc; "its output folder is {}", out.as_str()) {
            report.say(alloc, text.as_str());
        }
    }
}

/// Remembers a child that could not be started.
fn remember_start(alloc: Global, known: &mut Known, command: &Command, failed: &Failed) {
    let mut report = report_of(alloc, start_text(alloc, command, failed));
    add_out(alloc, &mut report, command, failed);
    known.add_child(alloc, key_of(command), report);
}

/// Returns the result of the start of a child, and remembers the start if it failed.
pub(crate) fn note_start<T>(
    alloc: Global,
    known: &mut Known,
    command: &Command,
    answer: Result<T, Failed>,
) -> Result<T, StartFault>
    ensures fault { IfErr result (λ e. e ≢ StartFault.OutOfMemory → e ≡ StartFault.CannotStart) }
    ensures memory { IfErr answer (λ failed. error_kind failed.error ≡ ErrorKind.OutOfMemory
        → result ≡ Err StartFault.OutOfMemory) }
{
    match answer {
        Ok(child) => Ok(child),
        Err(failed) if failed.is_memory() => Err(StartFault::OutOfMemory),
        Err(failed) => {
            remember_start(alloc, known, command, &failed);
            Err(StartFault::CannotStart)
        }
    }
}

/// Returns the first bytes that a child wrote, up to the first byte that is not UTF-8.
fn first_text(bytes: &[u8]) -> &str {
    let first = bytes.get(..MOST_BYTES).unwrap_or(bytes);
    match str::from_utf8(first) {
        Ok(text) => text,
        Err(error) => str::from_utf8(first.get(..error.valid_up_to()).unwrap_or(&[])).unwrap_or(""),
    }
}

/// Returns the text for a child that answered: `PROGRAM WORD .. ended with status N`.
///
/// Errors: out of memory.
fn status_text(alloc: Global, command: &Command, output: &Output) -> Result<String, AllocError> {
    let mut text = String::from_str(alloc, command.program.as_str())?;
    for word in command.words.as_slice() {
        text.push_str(" ")?;
        text.push_str(word.as_str())?;
    }
    let status = output.status.code().unwrap_or(0);
    text.push_str(format!(in alloc; " ended with status {status}")?.as_str())?;
    Ok(text)
}

/// Returns the report on the answer of a child without an output folder: the status, and the first
/// lines of standard error.
fn query_report(alloc: Global, command: &Command, output: &Output) -> Report {
    let mut report = report_of(alloc, status_text(alloc, command, output));
    for line in first_text(output.stderr.as_slice()).lines() {
        if let Ok(text) = format!(in alloc; "it wrote: {line}") {
            report.say(alloc, text.as_str());
        }
    }
    report
}

/// Returns the report on a child that a signal ended: its key and the signal.
fn signal_report(alloc: Global, command: &Command, output: &Output) -> Report {
    match output.status.signal() {
        Some(signal) => report_of(
            alloc,
            format!(in alloc;
                "the child of {} was ended by signal {signal}",
                key_of(command)
            ),
        ),
        None => Report::new(alloc),
    }
}

/// Remembers how a child ended, if the child died or has no output folder.
fn remember_end(alloc: Global, known: &mut Known, command: &Command, output: &Output) {
    if output.status.code().is_none() {
        let report = signal_report(alloc, command, output);
        known.add_child(alloc, key_of(command), report);
    } else if command.out.is_none() {
        known.query = query_report(alloc, command, output);
    }
}

/// Returns the text for a child whose output could not be read.
///
/// Errors: out of memory.
fn capture_text(alloc: Global, command: &Command, error: &io::Error) -> Result<String, AllocError> {
    let reason = reason_of(alloc, error)?;
    format!(in alloc;
        "cannot read what the child of {} wrote: {}",
        key_of(command),
        reason.as_str()
    )
}

/// Returns the result of the wait for the end of a child. How the child ended is remembered if the
/// child did not answer or has no output folder.
pub(crate) fn note_end(
    alloc: Global,
    known: &mut Known,
    command: &Command,
    output: io::Result<Output>,
) -> Result<Ended, StartFault>
    ensures fault { IfErr result (λ e. e ≢ StartFault.OutOfMemory → (e ≡ StartFault.Died)
        ⊎ (e ≡ StartFault.Capture)) }
{
    match output {
        Ok(output) => {
            remember_end(alloc, known, command, &output);
            end_of(output)
        }
        Err(error) if error.kind() == ErrorKind::OutOfMemory => Err(StartFault::OutOfMemory),
        Err(error) => {
            let report = report_of(alloc, capture_text(alloc, command, &error));
            known.add_child(alloc, key_of(command), report);
            Err(StartFault::Capture)
        }
    }
}
