//! Laws of what is read. Each function does nothing; its contract is the law.

ghost use Rattle.std.specs.Prelude.{◌≡◌, ℕ, List, ◌∷◌, ◌++◌, [], codes, None, Ok};
ghost use Rattle.pb_data.specs.OrderedSet.{once, EachOnce};
ghost use Rattle.pb_data.specs.Table.{value_at, names_of, last_value};
ghost use Rattle.pb_directive.specs.DepInfo.{dep_info_of, all_names_of};
ghost use Rattle.pb_directive.specs.Directives.{directives_of, directives_from};
ghost use Rattle.pb_directive.specs.Laws.{followed_by, then_said, then_named, line_count};
ghost use Rattle.pb_directive.specs.InfoWords.{InfosSay};
ghost use Rattle.pb_directive.specs.LineWords.{LinesSay};
ghost use Rattle.pb_directive.specs.Lines.{after_prefix, trimmed};
ghost use Rattle.pb_directive.specs.Metadata.{passed, dep_pairs};
ghost use Rattle.pb_directive.specs.declared.directive.Directive.{Directive};
ghost use Rattle.pb_directive.specs.declared.dep_info.DepInfo.{DepInfo};

/// Suppose that two texts are joined with a line feed between them. The result means what the first
/// text means, followed by what the second text means. The first fault counts. If only the second
/// text has a fault, the fault's line number also counts the lines of the first text.
pub fn directives_concatenate()
    ensures { (text more : List ℕ) → directives_of (followed_by text more)
        ≡ then_said (line_count text) (directives_of text) (directives_of more) }
{}

/// What `directives_concatenate` states is also true of the names of dep-info, before repeated
/// names are removed.
pub fn names_concatenate()
    ensures { (text more : List ℕ) → all_names_of (followed_by text more)
        ≡ then_named (line_count text) (all_names_of text) (all_names_of more) }
{}

/// A line that begins with neither `cargo::` nor `cargo:` means what an empty line means.
pub fn other_lines_say_nothing()
    ensures { (number : ℕ) (before after : List (List ℕ)) (line : List ℕ)
        → after_prefix (codes "cargo::") (trimmed line) ≡ None
        → after_prefix (codes "cargo:") (trimmed line) ≡ None
        → directives_from number (before ++ line ∷ after)
        ≡ directives_from number (before ++ [] ∷ after) }
{}

/// Dep-info names no path twice.
pub fn words_stand_once()
    ensures { (bytes : List ℕ) (info : DepInfo) → dep_info_of bytes ≡ Ok info
        → EachOnce info.words }
{}

/// Dep-info names no variable twice.
pub fn variables_stand_once()
    ensures { (bytes : List ℕ) (info : DepInfo) → dep_info_of bytes ≡ Ok info
        → EachOnce info.variables }
{}

/// If metadata sets a variable more than once, the last value counts.
pub fn last_metadata_counts()
    ensures { (links name : List ℕ) (directives : List Directive)
        → value_at name (dep_pairs links directives) ≡ last_value name (passed links directives) }
{}

/// Each variable that metadata names occurs once, and the variables are in order of first mention.
pub fn passed_names_stand_once()
    ensures { (links : List ℕ) (directives : List Directive)
        → names_of (dep_pairs links directives) ≡ once (names_of (passed links directives)) }
{}

/// This law says, for each key, what a line of a build script's output with this key means. Each
/// refused line gets the right error (The Cargo Book, Build Scripts, Outputs of the Build Script).
pub fn lines_say()
    ensures { LinesSay }
{}

/// This law says, for each kind of line of dep-info, what such a line names (The Cargo Book, Build
/// Cache, Dep-Info Files). Each refused line gets the right error.
pub fn infos_say()
    ensures { InfosSay }
{}
