//! The lines of a text, one after another.

ghost use Rattle.std.specs.Prelude.{◌≡◌, ◌==◌, [], ◌∷◌, ◌≤◌, ◌^◌, length, position};
ghost use Rattle.std.specs.Option.{option_map_or};
ghost use Rattle.pb_directive.specs.Lines.{lines_of, is_blank, trimmed_front, trimmed_end, trimmed};

use std::marker::Model;

/// The lines of a text that are still to come. Contracts see these lines as a list.
#[derive(Drop)]
pub struct Lines<'a> {
    rest: Option<&'a [u8]>,
}

impl<'a> Model for Lines<'a> {
    ghost use Rattle.std.specs.Prelude.{ℕ, List, []};
    ghost use Rattle.std.specs.Option.{option_map_or};
    ghost use Rattle.pb_directive.specs.Lines.{lines_of};

    ghost Value = { List (List ℕ) };

    ghost view = { λ a. option_map_or (λ rest. lines_of rest.now) a.rest [] };
}

/// Returns the lines of a text, without their line feeds. What follows the last line feed is a line
/// too.
#[tactic(auto, using(crate::proofs::TextLemmas::length_laws))]
pub fn lines_of(bytes: &[u8]) -> Lines<'_>
    ensures lines { result ≡ lines_of bytes.now }
    ensures few { length result ≤ 2 ^ 63 }
{
    let _length = bytes.len();
    Lines { rest: Some(bytes) }
}

impl<'a> Iterator for Lines<'a> {
    type Item = &'a [u8];

    ghost use Rattle.std.specs.Iterator.{YieldsFirstRef, item_count};

    ghost next_gives = { YieldsFirstRef (λ lines. lines) };

    ghost remaining = { item_count (λ lines. lines) };

    fn next(&mut self) -> Option<&'a [u8]> {
        let (line, rest) = first_line(self.rest?);
        self.rest = rest;
        Some(line)
    }
}

fn line_end(bytes: &[u8]) -> Option<usize>
    ensures { result ≡ position (λ b. b == 10) bytes.now }
{
    bytes.iter().position(|byte| *byte == b'\n')
}

/// Returns the first line, and the text that follows the line feed, if there is a line feed.
#[tactic(auto, using(crate::proofs::TextLemmas::line_laws))]
fn first_line(bytes: &[u8]) -> (&[u8], Option<&[u8]>)
    ensures { lines_of bytes.now
        ≡ result.0.now ∷ option_map_or (λ rest. lines_of rest.now) result.1 [] }
{
    match line_end(bytes) {
        None => (bytes, None),
        Some(end) => (&bytes[..end], Some(&bytes[end + 1..])),
    }
}

fn is_blank(byte: u8) -> bool
    ensures { result ≡ is_blank byte }
{
    byte == b' ' || byte == b'\t' || byte == b'\r'
}

fn trimmed_front(bytes: &[u8]) -> &[u8]
    ensures { result.now ≡ trimmed_front bytes.now }
{
    let mut kept = bytes;
    while let [first, rest @ ..] = kept {
        if !is_blank(*first) {
            break;
        }
        kept = rest;
    }
    kept
}

fn trimmed_end(bytes: &[u8]) -> &[u8]
    ensures { result.now ≡ trimmed_end bytes.now }
{
    let mut kept = bytes;
    while let [rest @ .., last] = kept {
        if !is_blank(*last) {
            break;
        }
        kept = rest;
    }
    kept
}

/// Returns a line without the spaces, tabs and carriage returns at its ends.
pub fn trim_line(line: &[u8]) -> &[u8]
    ensures { result.now ≡ trimmed line.now }
{
    trimmed_end(trimmed_front(line))
}
