//! Laws that names' files, records, log lines and a word's candidates are as gix_ref_format has them.

ghost use Rattle.history_model.specs.laws.Formats.{LooseReadsAlike, RecordsAlike, CandidatesAlike, LinesAlike};

/// A loose file that reads as an id or a name has the same target in gix_ref_format, which accepts
/// more spellings.
pub fn loose_reads_alike()
    ensures { LooseReadsAlike }
{}

/// Of the names that a repository may hold, only the private ones have no record in `packed-refs`.
pub fn records_alike()
    ensures { RecordsAlike }
{}

/// The candidates of a word are the word and the names to which gix_ref_format completes it, as far
/// as they are below `refs/` and not private.
pub fn candidates_alike()
    ensures { CandidatesAlike }
{}

/// A log's line is that of gix_ref_format: the two ids, who moved the name, and the message.
pub fn lines_alike()
    ensures { LinesAlike }
{}
