//! The values of a profile's keys.

ghost use Rattle.std.specs.Prelude.{◌≡◌};
ghost use Rattle.pb_profile_keys.specs.First.{first_some};
ghost use Rattle.pb_profile_keys.specs.Keys.{word_in};
ghost use Rattle.pb_profile_keys.specs.Setting.{spelled, words, if_spelled, word_of, same, accepted, meaning};

/// A value that is a word, as a manifest or the compiler spells it.
#[derive(Clone, Copy, Debug)]
pub enum Word {
    /// `abort`.
    Abort,
    /// `debuginfo`.
    DebugInfo,
    /// `fat`.
    Fat,
    /// `full`.
    Full,
    /// `limited`.
    Limited,
    /// `line-directives-only`.
    LineDirectivesOnly,
    /// `line-tables-only`.
    LineTablesOnly,
    /// `none`.
    Nothing,
    /// `off`.
    Off,
    /// `1`.
    One,
    /// `s`.
    Size,
    /// `z`.
    SmallestSize,
    /// `symbols`.
    Symbols,
    /// `thin`.
    Thin,
    /// `3`.
    Three,
    /// `2`.
    Two,
    /// `unwind`.
    Unwind,
    /// `0`.
    Zero,
}

/// All words.
const WORDS: [Word; 18] = [
    Word::Abort,
    Word::DebugInfo,
    Word::Fat,
    Word::Full,
    Word::Limited,
    Word::LineDirectivesOnly,
    Word::LineTablesOnly,
    Word::Nothing,
    Word::Off,
    Word::One,
    Word::Size,
    Word::SmallestSize,
    Word::Symbols,
    Word::Thin,
    Word::Three,
    Word::Two,
    Word::Unwind,
    Word::Zero,
];

impl Word {
    /// Returns the word as it is spelled.
    pub fn spelling(self) -> &'static str
        ensures { result.now ≡ spelled self }
    {
        match self {
            Word::Abort => "abort",
            Word::DebugInfo => "debuginfo",
            Word::Fat => "fat",
            Word::Full => "full",
            Word::Limited => "limited",
            Word::LineDirectivesOnly => "line-directives-only",
            Word::LineTablesOnly => "line-tables-only",
            Word::Nothing => "none",
            Word::Off => "off",
            Word::One => "1",
            Word::Size => "s",
            Word::SmallestSize => "z",
            Word::Symbols => "symbols",
            Word::Thin => "thin",
            Word::Three => "3",
            Word::Two => "2",
            Word::Unwind => "unwind",
            Word::Zero => "0",
        }
    }

    /// Returns the word with this spelling, if there is such a word.
    #[tactic(auto, unfolding(crate::specs::Setting::word_of))]
    pub fn of(text: &str) -> Option<Word>
        ensures { result ≡ word_of text.now }
    {
        spelled_so(&WORDS, text)
    }
}

/// Returns the word if it has this spelling.
fn if_spelled(text: &str, word: Word) -> Option<Word>
    ensures { result ≡ if_spelled text.now word }
{
    if word.spelling() == text {
        Some(word)
    } else {
        None
    }
}

/// Returns the first of these words that has this spelling.
fn spelled_so(words: &[Word], text: &str) -> Option<Word>
    ensures { result ≡ first_some (if_spelled text.now) words.now }
{
    let mut left = words;
    while let [word, after @ ..] = left {
        match if_spelled(text, *word) {
            Some(word) => return Some(word),
            None => left = after,
        }
    }
    None
}

/// A value of a key.
#[derive(Clone, Copy, Debug)]
pub enum Setting {
    /// A truth value.
    Truth(bool),
    /// A number.
    Number(u32),
    /// A word.
    Word(Word),
}

impl Setting {
    /// Returns whether two values are equal.
    pub fn is_same(self, other: Setting) -> bool
        ensures { result ≡ same self other }
    {
        match (self, other) {
            (Setting::Truth(a), Setting::Truth(b)) => a == b,
            (Setting::Number(a), Setting::Number(b)) => a == b,
            (Setting::Word(a), Setting::Word(b)) => a.spelling() == b.spelling(),
            _ => false,
        }
    }

    /// Returns the word, or the word `0` if the value is not a word.
    pub fn word(self) -> Word
        ensures { result ≡ word_in self }
    {
        match self {
            Setting::Word(word) => word,
            Setting::Truth(_) | Setting::Number(_) => Word::Zero,
        }
    }
}

/// Returns what a written value means by the first of these choices that allows the value.
pub fn meaning(choices: &[Choice], written: Setting) -> Option<Setting>
    ensures { result ≡ meaning choices.now written }
{
    let mut left = choices;
    while let [choice, after @ ..] = left {
        match choice.value_for(written) {
            Some(meant) => return Some(meant),
            None => left = after,
        }
    }
    None
}

/// One or several values that a key may have, and what each value means.
#[derive(Clone, Copy, Debug)]
pub enum Choice {
    /// A value that means itself.
    Is(Setting),
    /// The first value. It means the second value.
    Means(Setting, Setting),
    /// Each number from the first number to the second.
    Between(u32, u32),
}

impl Choice {
    /// Returns what a written value means by the choice, if the choice allows the value.
    pub fn value_for(self, written: Setting) -> Option<Setting>
        ensures { result ≡ accepted written self }
    {
        match self {
            Choice::Is(value) => if written.is_same(value) {
                Some(value)
            } else {
                None
            },
            Choice::Means(value, meant) => if written.is_same(value) {
                Some(meant)
            } else {
                None
            },
            Choice::Between(low, high) => match written {
                Setting::Number(n) => if low <= n && n <= high {
                    Some(written)
                } else {
                    None
                },
                _ => None,
            },
        }
    }
}
