//! Globs: patterns with `*` and `?` for one part of a path.

ghost use Rattle.std.specs.Prelude.{◌≡◌, ◌++◌, IfOk, true, reverse};
ghost use Rattle.pb_workspace.specs.Globs.{goes_on, matches, is_glob};
ghost use Rattle.pb_workspace.specs.Rows.{cells_from, row_of, plain_cells, star_cells, one_cells, byte_cells, stepped, last_matched};

use pb_data::Items;
use std::alloc::{AllocError, Global};

/// A suffix of a name: its first byte, and whether a pattern matches the suffix.
#[derive(Clone, Copy)]
struct Cell {
    byte: u8,
    matched: bool,
}

/// For each suffix of a name, whether a pattern matches this suffix. The suffixes are ordered by
/// length, from the empty suffix to the whole name.
#[derive(Drop)]
struct Row {
    empty: bool,
    cells: Items<Cell>,
}

/// Returns whether a text is a glob: whether it contains `*` or `?`.
pub fn is_glob(text: &str) -> bool
    ensures { result ≡ is_glob text.now }
{
    text.as_bytes()
        .iter()
        .any(|byte| *byte == b'*' || *byte == b'?')
}

/// Returns whether a byte continues a character.
fn goes_on(byte: u8) -> bool
    ensures { result ≡ goes_on byte }
{
    128 <= byte && byte <= 191
}

/// Returns bytes in reverse order.
fn backwards(alloc: Global, name: &[u8]) -> Result<Vec<u8>, AllocError>
    ensures { IfOk result (λ bytes. bytes.items ≡ reverse name.now) }
{
    name.iter().rev().copied().collect(alloc)
}

/// Returns the row of the empty pattern, which matches only the empty suffix.
fn last_row(alloc: Global, before: &[u8]) -> Result<Row, AllocError>
    ensures { IfOk result (λ row. row ≡ record { empty = true; cells = plain_cells before.now }) }
{
    let mut cells = Items::new(alloc);
    for byte in before {
        cells.push(Cell {
            byte: *byte,
            matched: false,
        })?;
    }
    Ok(Row { empty: true, cells })
}

/// Returns the cells of the pattern that consists of `*` and the pattern of the given cells.
fn star_cells(alloc: Global, empty: bool, cells: &[Cell]) -> Result<Items<Cell>, AllocError>
    ensures { IfOk result (λ made. made ≡ star_cells empty cells.now) }
{
    let mut made = Items::new(alloc);
    let mut shorter = empty;
    for cell in cells {
        shorter = cell.matched || shorter;
        made.push(Cell {
            byte: cell.byte,
            matched: shorter,
        })?;
    }
    Ok(made)
}

/// Returns the cells of the pattern that consists of `?` and the pattern of the given cells.
fn one_cells(alloc: Global, empty: bool, cells: &[Cell]) -> Result<Items<Cell>, AllocError>
    ensures { IfOk result (λ made. made ≡ one_cells empty cells.now) }
{
    let mut made = Items::new(alloc);
    let mut past = empty;
    for cell in cells {
        made.push(Cell {
            byte: cell.byte,
            matched: past,
        })?;
        past = if goes_on(cell.byte) {
            past
        } else {
            cell.matched
        };
    }
    Ok(made)
}

/// Returns the cells of the pattern that consists of this byte and the pattern of the given cells.
fn byte_cells(
    alloc: Global,
    byte: u8,
    empty: bool,
    cells: &[Cell],
) -> Result<Items<Cell>, AllocError>
    ensures { IfOk result (λ made. made ≡ byte_cells byte empty cells.now) }
{
    let mut made = Items::new(alloc);
    let mut shorter = empty;
    for cell in cells {
        made.push(Cell {
            byte: cell.byte,
            matched: cell.byte == byte && shorter,
        })?;
        shorter = cell.matched;
    }
    Ok(made)
}

/// Returns the row of the pattern that consists of this byte and the pattern of the given row.
fn next_row(alloc: Global, byte: u8, row: &Row) -> Result<Row, AllocError>
    ensures { IfOk result (λ made. made ≡ stepped byte row.now) }
{
    if byte == b'*' {
        let cells = star_cells(alloc, row.empty, row.cells.as_slice())?;
        return Ok(Row {
            empty: row.empty,
            cells,
        });
    }
    let cells = if byte == b'?' {
        one_cells(alloc, row.empty, row.cells.as_slice())?
    } else {
        byte_cells(alloc, byte, row.empty, row.cells.as_slice())?
    };
    Ok(Row {
        empty: false,
        cells,
    })
}

/// Returns the row of a pattern.
fn row_of(alloc: Global, pattern: &[u8], name: &[u8]) -> Result<Row, AllocError>
    ensures { IfOk result (λ row. row ≡ row_of (matches pattern.now) (reverse name.now)) }
{
    let before = backwards(alloc, name)?;
    let mut row = last_row(alloc, before.as_slice())?;
    for done in 0..pattern.len() {
        let index = pattern.len() - 1 - done;
        row = next_row(alloc, pattern[index], &row)?;
    }
    Ok(row)
}

/// Returns whether the pattern of a row matches the longest suffix, which is the whole name.
fn last_matched(row: &Row) -> bool
    ensures { result ≡ last_matched row.now.empty row.now.cells }
{
    let mut matched = row.empty;
    for cell in row.cells.as_slice() {
        matched = cell.matched;
    }
    matched
}

/// Returns whether a pattern matches a whole name. The name is one part of a path (The Cargo Book,
/// Workspaces). `*` matches any number of characters, even a dot at the front. `?` matches one
/// character, and every other byte matches itself. By our own choice `[` matches itself, and `**`
/// is the same as `*`. The time is proportional to the pattern's length times the name's length.
///
/// Errors: out of memory only.
pub fn matches(alloc: Global, pattern: &str, name: &str) -> Result<bool, AllocError>
    ensures { IfOk result (λ answer. answer ≡ matches pattern.now name.now) }
{
    let row = row_of(alloc, pattern.as_bytes(), name.as_bytes())?;
    Ok(last_matched(&row))
}
