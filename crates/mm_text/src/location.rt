//! A line and a column.

/// A line and a column of a text, both counted from 1.
///
/// A line feed ends a line, and nothing else does. Each byte is one column, the line feed too.
#[derive(Clone, Copy, Debug, PartialEq, Eq)]
pub struct Place {
    /// The line, from 1.
    pub line: u64,
    /// The column in the line, from 1, in bytes.
    pub column: u64,
}
