//! What a place reports of a failure.

ghost use Rattle.std.specs.Prelude.{◌≡◌, ◌<◌, [], All, IsTrue, ◌↔◌};
ghost use Rattle.pb_place_host.specs.Reports.{IsPrintable};

use pb_data::{Items, Text};
use std::alloc::{AllocError, Global};
use std::marker::Model;

/// The greatest number of texts in one report.
const MOST_TEXTS: usize = 10;

/// The greatest number of bytes of a text that is not cut. A path of the system has at most 4,096
/// bytes.
const LONGEST: usize = 8_192;

/// Returns a text with `?` for each control character. If the text exceeds the greatest length,
/// `..` replaces the rest.
///
/// Errors: out of memory.
fn plain_text(alloc: Global, text: &str) -> Result<String, AllocError> {
    let mut out = String::new(alloc);
    for letter in text.chars() {
        if out.len() > LONGEST {
            out.push_str("..")?;
            break;
        }
        out.push(if letter.is_control() { '?' } else { letter })?;
    }
    Ok(out)
}

/// Returns whether a text has no byte below 32, and therefore no line feed.
fn is_plain(text: &str) -> bool
    ensures { IsTrue result ↔ All IsPrintable text.now }
{
    text.as_bytes().iter().all(|byte| *byte > 31)
}

/// What is known of a failure: at most ten texts without line feeds. Contracts see the texts.
#[derive(Drop)]
pub(crate) struct Report {
    inside: Items<Text>,
}

impl Model for Report {
    ghost use Rattle.std.specs.Prelude.{ℕ, List};
    ghost use Rattle.pb_place_host.specs.Reports.{AreReported};

    ghost Value = { List (List ℕ) };

    ghost view = { λ a. a.inside };

    ghost invariant = { λ a. AreReported a.inside };
}

impl Report {
    ghost use Rattle.pb_place_host.specs.Reports.{AreReported};

    /// Returns a report without a text. This uses no memory.
    pub(crate) fn new(alloc: Global) -> Report
        ensures { result ≡ [] }
    {
        Report {
            inside: Items::new(alloc),
        }
    }

    /// Adds a text, if the text is plain, the report has fewer than ten texts, and memory does not
    /// run out.
    fn push(&mut self, text: String) {
        if self.inside.len() < MOST_TEXTS && is_plain(text.as_str()) {
            let _ = self.inside.push(Text::new(text));
        }
    }

    /// Adds a text with `?` for each control character, if memory does not run out.
    pub(crate) fn say(&mut self, alloc: Global, text: &str) {
        if let Ok(text) = plain_text(alloc, text) {
            self.push(text);
        }
    }

    /// Returns the texts.
    pub(crate) fn texts(&self) -> &[Text]
        ensures texts { result.now ≡ self.now }
        ensures plain { AreReported result.now }
    {
        self.inside.as_slice()
    }
}
