//! The rules of dep-info.

ghost use Rattle.std.specs.Prelude.{◌≡◌, ◌≢◌, ℕ, List, ◌∷◌, ◌++◌, [], ◌<◌, IfOk, length, string_bytes, MatchOption, OnOk, IfSome};
ghost use Rattle.std.specs.Option.{option_copied, option_map, option_map_or};
ghost use Rattle.pb_directive.specs.Directives.{some_word};
ghost use Rattle.pb_directive.specs.Lines.{split_first};
ghost use Rattle.pb_directive.specs.DepInfo.{ends_outputs, after_outputs, parts_of, rule_words};
ghost use Rattle.pb_data.specs.OrderedSet.{mentioned_all};

use crate::words::split_at_space;
use pb_data::{OrderedSet, Text};
use std::alloc::{AllocError, Global};

/// Returns whether a colon before this text ends the outputs of a rule.
fn ends_outputs(text: &str) -> bool
    ensures { result ≡ ends_outputs text.now }
{
    match text.as_bytes() {
        [] => true,
        [first, ..] => *first == b' ',
    }
}

/// Returns the texts before and after the first colon, if there is a colon.
fn split_at_colon(text: &str) -> Option<(&str, &str)>
    ensures { option_map (λ p. (p.0.now, p.1.now)) result ≡ split_first 58 text.now }
{
    text.split_once(':')
}

/// Returns the text after the first colon that ends the outputs of a rule, if there is such a
/// colon.
#[tactic(auto, using(crate::proofs::RuleLemmas::output_laws))]
pub fn after_outputs(text: &str) -> Option<&str>
    ensures { option_copied result ≡ after_outputs text.now }
{
    let mut left = text;
    while let Some((_, rest)) = split_at_colon(left) {
        if ends_outputs(rest) {
            return Some(rest);
        }
        left = rest;
    }
    None
}

/// Returns a part without the `\` at the part's end, if the part ends with `\`.
fn before_backslash(part: &str) -> Option<&str>
    ensures { MatchOption result ((front : List ℕ) → part.now ≢ front ++ 92 ∷ [])
        (λ front. part.now ≡ front.now ++ 92 ∷ []) }
{
    part.strip_suffix('\\')
}

/// Returns the first part of a text, and the text after the space that ends this part. There is a
/// second text only if there is such a space.
fn first_part(alloc: Global, text: &str) -> Result<(String, Option<&str>), AllocError>
    ensures parts { IfOk result (λ p.
        parts_of text.now ≡ string_bytes p.0 ∷ option_map_or (λ rest. parts_of rest.now) p.1 []) }
    ensures shorter { IfOk result (λ p. IfSome p.1 (λ rest. length rest.now < length text.now)) }
{
    let mut piece = String::new(alloc);
    let mut left = text;
    while let Some((part, rest)) = split_at_space(left) {
        match before_backslash(part) {
            Some(front) => {
                piece.push_str(front)?;
                piece.push_str(" ")?;
                left = rest;
            }
            None => {
                piece.push_str(part)?;
                return Ok((piece, Some(rest)));
            }
        }
    }
    piece.push_str(left)?;
    Ok((piece, None))
}

/// Adds a part to the mentioned texts, unless the part is empty.
fn add_part(part: String, words: &mut OrderedSet) -> Result<(), AllocError>
    ensures { OnOk result (words.new ≡ mentioned_all words.old (some_word (string_bytes part) [])) }
{
    if part.is_empty() {
        return Ok(());
    }
    words.insert(Text::new(part))?;
    Ok(())
}

/// Adds the words of a rule to the mentioned texts. The words follow the outputs of the rule.
pub fn add_words(alloc: Global, text: &str, words: &mut OrderedSet) -> Result<(), AllocError>
    ensures { OnOk result (words.new ≡ mentioned_all words.old (rule_words text.now)) }
{
    let mut left = text;
    loop {
        let (part, more) = first_part(alloc, left)?;
        add_part(part, words)?;
        match more {
            Some(rest) => left = rest,
            None => return Ok(()),
        }
    }
}
