//! Laws of the table of lines: what it has a step for, its places and fields, and the causes of rests.

ghost use Rattle.history_word.specs.LineTable.{WordsAreHeadings};
ghost use Rattle.history_word.specs.TableRuns.{all_lines, TableTellsCommands, TableTellsWhatGoesOn, TableTellsFields, TableTellsLines, TableTellsWhatFits, TableTellsStops, TableTakesLines, TableTakesFields};
ghost use Rattle.history_model.specs.Spelling.{has_spelling};
ghost use Rattle.history_model.specs.Stage.{opens};
ghost use Rattle.history_model.specs.Grammar.{is_command};
ghost use Rattle.history_model.specs.laws.Grammars.{RestBeginsOrHasCause};

/// Words are read as a line of the table exactly if they are that line's words.
pub fn words_are_headings()
    ensures { WordsAreHeadings }
{}

/// Parts lead from the table's start to its end exactly if they are a command's.
pub fn table_tells_commands()
    ensures all { TableTellsCommands all_lines }
    ensures offered { TableTellsCommands opens }
{}

/// Some command continues with a part exactly if the table has a step for it.
pub fn table_tells_what_goes_on()
    ensures all { TableTellsWhatGoesOn all_lines }
    ensures offered { TableTellsWhatGoesOn opens }
{}

/// If the table awaits a field, some command has one of that length there.
pub fn table_tells_fields()
    ensures all { TableTellsFields all_lines }
    ensures offered { TableTellsFields opens }
{}

/// If the table awaits a line, some command has a line there.
pub fn table_tells_lines()
    ensures all { TableTellsLines all_lines }
    ensures offered { TableTellsLines opens }
{}

/// A whole line fits exactly if the table has it.
pub fn table_tells_what_fits()
    ensures all { TableTellsWhatFits all_lines }
    ensures offered { TableTellsWhatFits opens }
{}

/// The cause for which a rest can't continue is determined by the place and the awaited fields.
pub fn table_tells_stops()
    ensures all { TableTellsStops all_lines }
    ensures offered { TableTellsStops opens }
{}

/// A line that the table has leads to its fields and its next place.
pub fn table_takes_lines()
    ensures all { TableTakesLines all_lines }
    ensures offered { TableTakesLines opens }
{}

/// A field of the awaited length leads to the next one, or to the place after it.
pub fn table_takes_fields()
    ensures all { TableTakesFields all_lines }
    ensures offered { TableTakesFields opens }
{}

/// A rest that isn't empty begins with a command or has a cause.
pub fn rest_begins_or_has_cause()
    ensures all { RestBeginsOrHasCause has_spelling }
    ensures offered { RestBeginsOrHasCause is_command }
{}
