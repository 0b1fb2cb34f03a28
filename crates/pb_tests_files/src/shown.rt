//! Texts that are made from parts.

use pb_data::Text;
use pb_profile_keys::{ProfileKey, Setting, Word};
use std::alloc::{AllocError, Global};
use std::fmt::{Debug, Display, Write};

/// A text that is made from parts. If memory was refused, the end of the text says so.
#[derive(Drop)]
pub struct Shown {
    /// The text so far.
    text: String,
    /// Whether memory was refused to a part.
    lacks: bool,
}

impl Shown {
    /// Returns an empty text.
    pub fn new(alloc: Global) -> Shown {
        Shown {
            text: String::new(alloc),
            lacks: false,
        }
    }

    /// Returns whether the text is empty.
    pub fn is_empty(&self) -> bool {
        self.text.is_empty()
    }

    /// Returns the text so far.
    pub fn as_str(&self) -> &str {
        self.text.as_str()
    }

    /// Returns whether this is the whole text.
    pub fn says(&self, wanted: &str) -> bool {
        !self.lacks && self.text.as_str() == wanted
    }

    /// Puts texts one after another.
    pub fn put(&mut self, texts: &[&str]) {
        for text in texts {
            if self.text.push_str(*text).is_err() {
                self.lacks = true;
            }
        }
    }

    /// Puts a value as `Debug` writes it.
    pub fn put_value<T: Debug>(&mut self, value: &T) {
        if write!(self.text, "{value:?}").is_err() {
            self.lacks = true;
        }
    }

    /// Puts a setting by the name of its meaning.
    pub fn put_setting(&mut self, key: ProfileKey, setting: Setting) {
        match (key, setting) {
            (ProfileKey::Debug, Setting::Word(Word::Zero)) => self.put(&["Nothing"]),
            (ProfileKey::Debug, Setting::Word(Word::One)) => self.put(&["Limited"]),
            (ProfileKey::Debug, Setting::Word(Word::Two)) => self.put(&["Full"]),
            (ProfileKey::Lto, Setting::Truth(false)) => self.put(&["ThinLocal"]),
            (_, Setting::Truth(truth)) => self.put_value(&truth),
            (_, Setting::Number(number)) => self.put_value(&number),
            (_, Setting::Word(word)) => self.put_value(&word),
        }
    }

    /// Puts a value in words.
    pub fn put_words<T: Display>(&mut self, value: &T) {
        if write!(self.text, "{value}").is_err() {
            self.lacks = true;
        }
    }

    /// Puts a number.
    pub fn put_number(&mut self, number: u64) {
        self.put_words(&number);
    }

    /// Puts `NAME<FIRST><SECOND>`.
    pub fn put_call(&mut self, name: &str, first: &str, second: &str) {
        self.put(&[name, "<", first, "><", second, ">"]);
    }

    /// Puts texts, each between these two.
    pub fn put_each(&mut self, before: &str, texts: &[Text], behind: &str) {
        for text in texts {
            self.put(&[before, text.as_str(), behind]);
        }
    }

    /// Returns the whole text.
    pub fn whole(self) -> Result<String, AllocError> {
        if self.lacks {
            return Err(AllocError);
        }
        Ok(self.text)
    }
}
