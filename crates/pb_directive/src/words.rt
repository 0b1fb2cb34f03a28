//! The words of a text, separated by spaces.

ghost use Rattle.std.specs.Prelude.{◌≡◌, ◌∷◌, [], MatchOption};
ghost use Rattle.std.specs.Option.{option_map};
ghost use Rattle.pb_directive.specs.Lines.{split_first};
ghost use Rattle.pb_directive.specs.Directives.{words_of};

use std::marker::Model;

/// The words of a text that are still to come. Contracts see these words as a list.
#[derive(Drop)]
pub struct Words<'a> {
    rest: &'a str,
}

impl<'a> Model for Words<'a> {
    ghost use Rattle.std.specs.Prelude.{ℕ, List};
    ghost use Rattle.pb_directive.specs.Directives.{words_of};

    ghost Value = { List (List ℕ) };

    ghost view = { λ a. words_of a.rest.now };
}

/// Returns the parts of a text between spaces, except empty parts.
pub fn words_of(text: &str) -> Words<'_>
    ensures { result ≡ words_of text.now }
{
    Words { rest: text }
}

impl<'a> Iterator for Words<'a> {
    type Item = &'a str;

    ghost use Rattle.std.specs.Iterator.{YieldsFirstRef, item_count};

    ghost next_gives = { YieldsFirstRef (λ words. words) };

    ghost remaining = { item_count (λ words. words) };

    fn next(&mut self) -> Option<&'a str> {
        let (word, rest) = first_word(self.rest)?;
        self.rest = rest;
        Some(word)
    }
}

/// Returns the texts before and after the first space, if there is a space.
pub fn split_at_space(text: &str) -> Option<(&str, &str)>
    ensures { option_map (λ p. (p.0.now, p.1.now)) result ≡ split_first 32 text.now }
{
    text.split_once(' ')
}

/// Returns the first word and the text after this word, if there is a word.
#[tactic(auto, using(crate::proofs::WordLemmas::word_laws))]
fn first_word(text: &str) -> Option<(&str, &str)>
    ensures { MatchOption result (words_of text.now ≡ [])
        (λ p. words_of text.now ≡ p.0.now ∷ words_of p.1.now) }
{
    let mut rest = text;
    while let Some((part, after)) = split_at_space(rest) {
        if !part.is_empty() {
            return Some((part, after));
        }
        rest = after;
    }
    if rest.is_empty() {
        return None;
    }
    Some((rest, ""))
}
