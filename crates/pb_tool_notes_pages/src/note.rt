//! A note, and the notes on a refusal.

ghost use Rattle.std.specs.Prelude.{◌≡◌, ◌<◌, ◌++◌, ◌∷◌, [], All, IfOk, IsTrue, ◌↔◌, OnOk, string_bytes, codes};
ghost use Rattle.pb_tool_notes_pages.specs.Notes.{IsPlain, lines_of};

use pb_data::{Items, Text};
use std::alloc::{AllocError, Global};
use std::marker::Model;

/// The greatest number of notes on one refusal.
pub const MOST_NOTES: usize = 9;

/// The greatest number of bytes of a note.
const LONGEST: usize = 400;

/// A fact about a refusal, and the fact's position.
#[derive(Drop)]
pub struct Note<'a> {
    /// The path of a manifest; empty if the fact is not about a manifest.
    pub path: &'a str,
    /// The line, from 1; 0 if the line is not known.
    pub line: usize,
    /// The column, from 1; 0 if the column is not known.
    pub column: usize,
    /// The whole key path, as `dependencies.util.path`; empty if the fact is not about a key.
    pub key: &'a str,
    /// The fact.
    pub text: &'a str,
}

/// Adds the position of a fact: `in PATH[, line N[, column N]][, key KEY]: `.
fn push_where(alloc: Global, out: &mut String, note: &Note) -> Result<(), AllocError> {
    out.push_str("in ")?;
    out.push_str(note.path)?;
    if note.line > 0 {
        let line = note.line;
        out.push_str(format!(in alloc; ", line {line}")?.as_str())?;
    }
    if note.column > 0 {
        let column = note.column;
        out.push_str(format!(in alloc; ", column {column}")?.as_str())?;
    }
    if !note.key.is_empty() {
        out.push_str(", key ")?;
        out.push_str(note.key)?;
    }
    out.push_str(": ")
}

/// Returns the whole text of a note: `[in PATH[, line N[, column N]][, key KEY]: ]TEXT`.
fn whole(alloc: Global, note: &Note) -> Result<String, AllocError> {
    let mut out = String::new(alloc);
    if !note.path.is_empty() {
        push_where(alloc, &mut out, note)?;
    }
    out.push_str(note.text)?;
    Ok(out)
}

/// Returns a text in which `?` replaces each control character. If the text exceeds the greatest
/// length, `..` replaces the rest.
fn plain_text(alloc: Global, text: &str) -> Result<String, AllocError> {
    let mut out = String::new(alloc);
    for letter in text.chars() {
        if out.len() > LONGEST {
            out.push_str("..")?;
            break;
        }
        out.push(if letter.is_control() { '?' } else { letter })?;
    }
    Ok(out)
}

/// Returns whether all bytes of a text are greater than 31. A text of such bytes has no line feed.
fn is_plain(text: &str) -> bool
    ensures { IsTrue result ↔ All IsPlain text.now }
{
    text.as_bytes().iter().all(|byte| *byte > 31)
}

/// The notes on a refusal: at most nine texts without line feeds. Contracts see the texts.
#[derive(Drop)]
pub struct Notes {
    inside: Items<Text>,
    /// How many notes came after the ninth.
    more: usize,
}

impl Model for Notes {
    ghost use Rattle.std.specs.Prelude.{ℕ, List};
    ghost use Rattle.pb_tool_notes_pages.specs.Notes.{AreNotes};

    ghost Value = { List (List ℕ) };

    ghost view = { λ a. a.inside };

    ghost invariant = { λ a. AreNotes a.inside };
}

impl Notes {
    ghost use Rattle.pb_tool_notes_pages.specs.Notes.{AreNotes};

    /// Returns an empty list of notes. This takes no memory.
    pub fn new(alloc: Global) -> Notes
        ensures { result ≡ [] }
    {
        Notes {
            inside: Items::new(alloc),
            more: 0,
        }
    }

    /// Returns whether there are as many notes as allowed.
    pub fn is_full(&self) -> bool {
        self.inside.len() >= MOST_NOTES
    }

    /// Counts a note that comes after the ninth.
    pub fn pass_over(&mut self) {
        self.more = self.more.saturating_add(1);
    }

    /// Adds a text, if it has no line feed and there are fewer than nine texts. If memory runs out,
    /// the text is left out.
    fn push(&mut self, text: String) {
        if self.inside.len() < MOST_NOTES && is_plain(text.as_str()) {
            let _ = self.inside.push(Text::new(text));
        }
    }

    /// Adds a note. If there are nine notes already, the function only counts the note.
    ///
    /// Errors: only out of memory.
    pub fn add(&mut self, alloc: Global, note: &Note) -> Result<(), AllocError> {
        if self.is_full() {
            self.pass_over();
            return Ok(());
        }
        let text = whole(alloc, note)?;
        self.push(plain_text(alloc, text.as_str())?);
        Ok(())
    }

    /// Adds a fact that is not about one manifest.
    ///
    /// Errors: only out of memory.
    pub fn say(&mut self, alloc: Global, text: &str) -> Result<(), AllocError> {
        self.add(
            alloc,
            &Note {
                path: "",
                line: 0,
                column: 0,
                key: "",
                text,
            },
        )
    }

    /// Returns the first eight notes, and a ninth that says how many others there are.
    fn with_count(&self, alloc: Global) -> Result<Notes, AllocError> {
        let mut notes = Notes::new(alloc);
        for text in self.inside.as_slice().iter().take(MOST_NOTES - 1) {
            notes.push(String::from_str(alloc, text.as_str())?);
        }
        let more = self.more.saturating_add(1);
        notes.push(format!(in alloc; "and {more} more")?);
        Ok(notes)
    }

    /// Returns the notes as they are printed. If notes came after the ninth, the ninth text is `and
    /// N more`. If memory runs out for this text, the notes stay as they are.
    pub fn finish(self, alloc: Global) -> Notes {
        if self.more == 0 {
            return self;
        }
        match self.with_count(alloc) {
            Ok(notes) => notes,
            Err(_) => self,
        }
    }

    /// Returns the texts.
    pub fn texts(&self) -> &[Text]
        ensures texts { result.now ≡ self.now }
        ensures notes { AreNotes self.now }
    {
        self.inside.as_slice()
    }

    /// Returns a line `note: TEXT` for each note.
    ///
    /// Errors: only out of memory.
    pub fn lines(&self, alloc: Global) -> Result<String, AllocError>
        ensures { IfOk result (λ text. string_bytes text ≡ lines_of self.now) }
    {
        lines_of(alloc, self.texts())
    }
}

/// Adds the line of a note.
fn push_line(out: &mut String, text: &str) -> Result<(), AllocError>
    ensures { OnOk result (string_bytes out.new
        ≡ string_bytes out.old ++ codes "note: " ++ text.now ++ codes "\n") }
{
    out.push_str("note: ")?;
    out.push_str(text)?;
    out.push_str("\n")?;
    Ok(())
}

/// Returns a line for each text.
fn lines_of(alloc: Global, texts: &[Text]) -> Result<String, AllocError>
    ensures { IfOk result (λ text. string_bytes text ≡ lines_of texts.now) }
{
    let mut out = String::new(alloc);
    for text in texts {
        push_line(&mut out, text.as_str())?;
    }
    Ok(out)
}
