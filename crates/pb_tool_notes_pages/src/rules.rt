//! What is allowed at a key of a manifest: a row for each key that a build reads, or that cargo
//! knows (The Cargo Book, Manifest Format, Profiles, Specifying Dependencies, Workspaces).

use toml::{Table, Value};

/// The kind of a table of a manifest.
#[derive(Clone, Copy, PartialEq, Eq)]
pub enum Kind {
    /// The manifest itself.
    Top,
    /// `[package]`.
    Package,
    /// `[lib]`.
    Library,
    /// One of `[[bin]]`.
    Binary,
    /// `[dependencies]` or `[build-dependencies]`.
    Entries,
    /// One entry of `[dependencies]` or `[build-dependencies]`, if the entry is a table.
    Entry,
    /// `[features]`.
    Features,
    /// `[workspace]`.
    Workspace,
    /// `[workspace.package]`.
    Shared,
    /// `[workspace.dependencies]`.
    SharedEntries,
    /// One entry of `[workspace.dependencies]`, if the entry is a table.
    SharedEntry,
    /// `[profile]`.
    Profiles,
    /// One profile of `[profile]`.
    Profile,
    /// The table `package` of a profile.
    Overrides,
    /// What a profile sets for one package, or for build scripts.
    Override,
}

/// A line for each key, with its rule. `+` after a rule means that `{ workspace = true }` is
/// allowed too. `any` means that each value is allowed.
const TOP: &str =
    "package table\nlib table\nbin tables\ndependencies table\nbuild-dependencies table\nfeatures table\nprofile table\nworkspace table\ndev-dependencies any\ntarget any\npatch any\nreplace any\nexample any\ntest any\nbench any\nbadges any\nlints any\nhints any\ncargo-features any\n";

const PACKAGE: &str =
    "name text\nversion text+\nauthors texts+\nautobins truth\nbuild build\ndescription text+\nedition edition+\nhomepage text+\nlicense text+\nlicense-file text+\nlinks text\nreadme readme+\nrepository text+\nresolver resolver\nrust-version text+\nworkspace any\nmetadata any\nkeywords any\ncategories any\npublish any\ndocumentation any\nexclude any\ninclude any\nautolib any\nautoexamples any\nautotests any\nautobenches any\ndefault-run any\nforced-target any\ndefault-target any\nim-a-teapot any\n";

const LIBRARY: &str =
    "name text\npath text\ncrate-type texts\nproc-macro truth\ntest any\ndoctest any\nbench any\ndoc any\nplugin any\nharness any\nedition any\nrequired-features any\ndoc-scrape-examples any\n";

const BINARY: &str =
    "name text\npath text\nrequired-features texts\ntest any\ndoctest any\nbench any\ndoc any\nplugin any\nproc-macro any\nharness any\nedition any\ncrate-type any\nfilename any\ndoc-scrape-examples any\n";

const ENTRY: &str =
    "path text\nversion text\npackage text\noptional truth\ndefault-features truth\nfeatures texts\nworkspace taken\ngit any\nbranch any\ntag any\nrev any\nregistry any\nregistry-index any\npublic any\nartifact any\nlib any\ntarget any\nbase any\n";

const SHARED_ENTRY: &str =
    "path text\nversion text\npackage text\noptional any\ndefault-features truth\nfeatures texts\nworkspace any\ngit any\nbranch any\ntag any\nrev any\nregistry any\nregistry-index any\npublic any\nartifact any\nlib any\ntarget any\nbase any\n";

const WORKSPACE: &str =
    "members texts\nexclude texts\ndefault-members texts\nresolver resolver\npackage table\ndependencies table\nlints any\nmetadata any\n";

const SHARED: &str =
    "version text\nauthors texts\ndescription text\nedition edition\nhomepage text\nlicense text\nlicense-file text\nreadme readme\nrepository text\nrust-version text\nkeywords any\ncategories any\npublish any\ndocumentation any\nexclude any\ninclude any\n";

const PROFILE: &str =
    "inherits text\nopt-level level\ndebug debug\nsplit-debuginfo any\nstrip strip\ndebug-assertions truth\noverflow-checks truth\nlto lto\npanic panic\nincremental any\ncodegen-units units\nrpath truth\npackage table\nbuild-override table\nrustflags any\ntrim-paths any\ncodegen-backend any\nhint-mostly-unused any\n";

const OVERRIDE: &str =
    "opt-level level\ndebug debug\nsplit-debuginfo any\nstrip strip\ndebug-assertions truth\noverflow-checks truth\nlto lto\npanic panic\nincremental any\ncodegen-units units\nrpath truth\nrustflags any\ntrim-paths any\ncodegen-backend any\nhint-mostly-unused any\n";

/// Returns the rows of the keys that a table may have, or an empty text if each key is allowed.
pub fn rows_of(kind: Kind) -> &'static str {
    match kind {
        Kind::Top => TOP,
        Kind::Package => PACKAGE,
        Kind::Library => LIBRARY,
        Kind::Binary => BINARY,
        Kind::Entry => ENTRY,
        Kind::SharedEntry => SHARED_ENTRY,
        Kind::Workspace => WORKSPACE,
        Kind::Shared => SHARED,
        Kind::Profile => PROFILE,
        Kind::Override => OVERRIDE,
        Kind::Entries | Kind::SharedEntries | Kind::Features | Kind::Profiles | Kind::Overrides =>
            "",
    }
}

/// Returns the rule of a key among some rows.
fn row_of(rows: &'static str, key: &str) -> Option<&'static str> {
    for row in rows.lines() {
        if let Some((name, rule)) = row.split_once(' ') {
            if name == key {
                return Some(rule);
            }
        }
    }
    None
}

/// Returns the rule of a key in a table, or none if nothing reads the key.
pub fn rule_of(kind: Kind, key: &str) -> Option<&'static str> {
    match kind {
        Kind::Entries | Kind::SharedEntries => Some("entry"),
        Kind::Features => Some("texts"),
        Kind::Profiles | Kind::Overrides => Some("table"),
        _ => row_of(rows_of(kind), key),
    }
}

/// Returns whether a value is a list of texts.
fn is_texts(value: &Value) -> bool {
    match value.as_array() {
        Some(values) => values.iter().all(|one| one.as_str().is_some()),
        None => false,
    }
}

/// Returns whether a value is a list of tables.
fn is_tables(value: &Value) -> bool {
    match value.as_array() {
        Some(values) => values.iter().all(|one| one.as_table().is_some()),
        None => false,
    }
}

/// Returns whether a value is one of these texts, which commas separate.
fn is_word(value: &Value, words: &str) -> bool {
    match value.as_str() {
        Some(text) => words.split(',').any(|word| word == text),
        None => false,
    }
}

/// Returns whether a value is a number from the first to the last.
fn is_between(value: &Value, first: i64, last: i64) -> bool {
    match value.as_integer() {
        Some(number) => first <= number && number <= last,
        None => false,
    }
}

/// Returns whether a table contains `workspace = true`.
pub fn is_taken(table: &Table) -> bool {
    matches!(table.get("workspace").and_then(Value::as_bool), Some(true))
}

/// Returns whether a rule that names a type allows a value.
fn fits_type(rule: &str, value: &Value) -> bool {
    match rule {
        "text" => value.is_str(),
        "texts" => is_texts(value),
        "truth" => value.is_bool(),
        "table" => value.is_table(),
        "tables" => is_tables(value),
        "entry" => value.is_str() || value.is_table(),
        "readme" => value.is_str() || value.is_bool(),
        "build" => value.is_str() || matches!(value.as_bool(), Some(false)),
        "taken" => matches!(value.as_bool(), Some(true)),
        _ => true,
    }
}

/// Returns whether a rule that names some values allows a value.
fn fits_values(rule: &str, value: &Value) -> bool {
    match rule {
        "edition" => is_word(value, "2015,2018,2021,2024"),
        "resolver" => is_word(value, "1,2,3"),
        "level" => is_between(value, 0, 3) || is_word(value, "s,z"),
        "debug" => {
            value.is_bool()
                || is_between(value, 0, 2)
                || is_word(
                    value,
                    "none,limited,full,line-tables-only,line-directives-only",
                )
        }
        "strip" => value.is_bool() || is_word(value, "none,debuginfo,symbols"),
        "lto" => value.is_bool() || is_word(value, "fat,thin,off"),
        "panic" => is_word(value, "unwind,abort"),
        "units" => is_between(value, 1, 65536),
        _ => fits_type(rule, value),
    }
}

/// Returns whether a rule allows a value.
pub fn fits(rule: &str, value: &Value) -> bool {
    match rule.strip_suffix('+') {
        Some(own) => match value.as_table() {
            Some(table) => is_taken(table),
            None => fits_values(own, value),
        },
        None => fits_values(rule, value),
    }
}

/// Returns whether a rule allows some other value of the same type as this value.
pub(crate) fn has_values(rule: &str, value: &Value) -> bool {
    match rule.strip_suffix('+').unwrap_or(rule) {
        "edition" | "resolver" | "panic" => value.is_str(),
        "level" => value.is_str() || value.is_integer(),
        "debug" => value.is_str() || value.is_integer() || value.is_bool(),
        "strip" | "lto" => value.is_str() || value.is_bool(),
        "units" => value.is_integer(),
        "build" | "taken" => value.is_bool(),
        "texts" | "tables" => value.is_array(),
        _ => false,
    }
}

/// Returns, in words, what a rule allows.
pub(crate) fn expectation(rule: &str) -> &'static str {
    match rule.strip_suffix('+').unwrap_or(rule) {
        "text" => "a text",
        "texts" => "a list of texts",
        "truth" => "true or false",
        "table" => "a table",
        "tables" => "a list of tables",
        "entry" => "a text or a table",
        "readme" => "a text, true or false",
        "build" => "a text or false",
        "taken" => "true",
        "edition" => "\"2015\", \"2018\", \"2021\" or \"2024\"",
        "resolver" => "\"2\" or \"3\"",
        "level" => "0, 1, 2, 3, \"s\" or \"z\"",
        "debug" => {
            "0, 1, 2, true, false, \"none\", \"limited\", \"full\", \"line-tables-only\" or \"line-directives-only\""
        }
        "strip" => "true, false, \"none\", \"debuginfo\" or \"symbols\"",
        "lto" => "true, false, \"fat\", \"thin\" or \"off\"",
        "panic" => "\"unwind\" or \"abort\"",
        "units" => "1 to 65536",
        _ => "anything",
    }
}
