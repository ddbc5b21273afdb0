//! The error of a line that is no line of a log, with its number (`LineNumber`).

use std::fmt;

/// The number of a line, from 1 on.
#[derive(Debug, Clone, Copy, PartialEq, Eq)]
pub enum LineNumber {
    /// Counted from the log's first line.
    FromStart(usize),
    /// Counted from the log's last line.
    FromEnd(usize),
}

impl fmt::Display for LineNumber {
    fn fmt<W: fmt::Write>(&self, f: &mut fmt::Formatter<W>) -> fmt::Result {
        match self {
            LineNumber::FromStart(number) => write!(f, "{number}"),
            LineNumber::FromEnd(number) => write!(f, "{number} from the end"),
        }
    }
}

/// A line that is no line of a log.
#[derive(Debug, Clone, Copy, PartialEq, Eq, thiserror::Error)]
#[error("line {line} is no line of a reference's log")]
pub struct Error {
    /// Its number.
    pub line: LineNumber,
}
