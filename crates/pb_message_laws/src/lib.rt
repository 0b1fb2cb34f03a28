//! Laws of message lines, and of the meaning of a compiler's lines. Each message line ends with its
//! only line feed, and is the text of one JSON object with given members (The Cargo Book, External
//! Tools).
#![tactic(auto)]

ghost use Rattle.pb_message_laws.specs.Objects.{MessagesAreObjects, EndsAreObjects, DiagnosticsAreCopied, LinesFollow};
ghost use Rattle.pb_message_laws.specs.OneLine.{MessagesAreLines, BuildsEndInLine, DiagnosticsAreLines};
ghost use Rattle.pb_message_laws.specs.Streams.{CompilersSay};
ghost use Rattle.pb_message_laws.specs.Told.{LinesTellMessages};

/// A law: the line of each message has one line feed, its last byte. A compiler's diagnostic is
/// copied byte for byte, so the diagnostic must contain no line feed. Everything else is in JSON
/// strings, which escape line feeds.
pub fn messages_are_lines()
    ensures messages { MessagesAreLines }
    ensures end { BuildsEndInLine }
{}

/// A law: no diagnostic that is found in what a compiler writes contains a line feed.
pub fn diagnostics_are_lines()
    ensures { DiagnosticsAreLines }
{}

/// A law: if two messages of the same package and target have the same line, the messages are of
/// the same kind. If the two messages are diagnostics or notes, they are equal. For artifacts and
/// executed scripts we promise no more, since the lines of these messages contain less than the
/// messages.
pub fn lines_tell_messages()
    ensures { LinesTellMessages }
{}

/// A law: each message line is the text of one object without spaces, with fixed members in a fixed
/// order, and a line feed. A compiler's diagnostic is copied byte for byte as the member `message`.
pub fn lines_are_objects()
    ensures messages { MessagesAreObjects }
    ensures ends { EndsAreObjects }
    ensures diagnostics { DiagnosticsAreCopied }
{}

/// A law: the text for several messages is the concatenation of the lines of these messages.
pub fn lines_follow()
    ensures { LinesFollow }
{}

/// This law says which lines of a compiler's standard error are diagnostics, and which lines are
/// plain text.
pub fn compilers_say()
    ensures { CompilersSay }
{}
