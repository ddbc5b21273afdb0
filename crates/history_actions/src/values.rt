//! The values in a report, each after a space: paths, ids, names, numbers; those of each `OpenError`.
ghost use Rattle.std.specs.Prelude.{◌∷◌, [], decimal};
ghost use Rattle.gix_hash.specs.Id.{id_of};
ghost use Rattle.history_model.specs.Objects.{hex};
ghost use Rattle.history_actions.specs.Told.{Writes, cause_values, namer_text, values_text};

use gix_hash::{Kind, ObjectId};
use history::{Broken, NamedBy, OpenError, Sink};
use history_store::hex_digits;
use history_word::write_all;

/// Writes a value.
pub(crate) fn write_value<E: Sink>(errors: &mut E, value: &[u8]) -> Result<(), Broken>
    ensures { Writes (E.contents errors.old) (E.contents errors.new) (E.has_failed errors.new)
        (values_text (value.now ∷ [])) result }
{
    write_all(errors, b" ")?;
    write_all(errors, value)
}

/// Writes an id in hexadecimal digits.
fn write_id<E: Sink>(errors: &mut E, id: &ObjectId) -> Result<(), Broken>
    ensures { Writes (E.contents errors.old) (E.contents errors.new) (E.has_failed errors.new)
        (values_text (hex (id_of id.now) ∷ [])) result }
{
    let mut digits = Kind::hex_buf();
    write_value(errors, hex_digits(id, &mut digits))
}

/// Writes what names an object.
fn write_namer<E: Sink>(errors: &mut E, by: &NamedBy) -> Result<(), Broken>
    ensures { Writes (E.contents errors.old) (E.contents errors.new) (E.has_failed errors.new)
        (values_text (namer_text by.now ∷ [])) result }
{
    match by {
        NamedBy::Object(id) => write_id(errors, id),
        NamedBy::Name(name) => write_value(errors, name),
    }
}

/// Writes an object's id, and what names it.
fn write_named<E: Sink>(errors: &mut E, id: &ObjectId, by: &NamedBy) -> Result<(), Broken>
    ensures { Writes (E.contents errors.old) (E.contents errors.new) (E.has_failed errors.new)
        (values_text (hex (id_of id.now) ∷ namer_text by.now ∷ [])) result }
{
    write_id(errors, id)?;
    write_namer(errors, by)
}

/// Writes a log's path, and the number of one of its lines.
fn write_place<E: Sink>(errors: &mut E, path: &[u8], number: usize) -> Result<(), Broken>
    ensures { Writes (E.contents errors.old) (E.contents errors.new) (E.has_failed errors.new)
        (values_text (path.now ∷ decimal number ∷ [])) result }
{
    write_value(errors, path)?;
    write_number(errors, number)
}

/// Writes the number of a line.
fn write_number<E: Sink>(errors: &mut E, number: usize) -> Result<(), Broken>
    ensures { Writes (E.contents errors.old) (E.contents errors.new) (E.has_failed errors.new)
        (values_text (decimal number ∷ [])) result }
{
    let mut digits = itoa::Buffer::new();
    write_value(errors, digits.format(number).as_bytes())
}

/// Writes two names.
fn write_names<E: Sink>(errors: &mut E, name: &[u8], other: &[u8]) -> Result<(), Broken>
    ensures { Writes (E.contents errors.old) (E.contents errors.new) (E.has_failed errors.new)
        (values_text (name.now ∷ other.now ∷ [])) result }
{
    write_value(errors, name)?;
    write_value(errors, other)
}

/// Writes the values of a cause.
pub(crate) fn write_cause_values<E: Sink>(errors: &mut E, cause: &OpenError) -> Result<(), Broken>
    ensures { Writes (E.contents errors.old) (E.contents errors.new) (E.has_failed errors.new)
        (values_text (cause_values cause.now)) result }
{
    match cause {
        OpenError::NoHead
        | OpenError::BadHead
        | OpenError::IdReserved
        | OpenError::File
        | OpenError::Memory => Ok(()),
        OpenError::Stray(path)
        | OpenError::Unfinished(path)
        | OpenError::BadObject(path)
        | OpenError::WrongId(path)
        | OpenError::TooLarge(path)
        | OpenError::BadName(path)
        | OpenError::PrivateName(path)
        | OpenError::Symbolic(path)
        | OpenError::BadPeeled(path)
        | OpenError::LogWithoutName(path) => write_value(errors, path),
        OpenError::BadTree(id)
        | OpenError::BadTime(id)
        | OpenError::BadTag(id)
        | OpenError::Cycle(id) => write_id(errors, id),
        OpenError::Missing(id, by) | OpenError::WrongKind(id, by) => write_named(errors, id, by),
        OpenError::BadPacked(number) => write_number(errors, *number),
        OpenError::Collides(name, other) => write_names(errors, name, other),
        OpenError::BadLog(path, number) | OpenError::LongLogLine(path, number) => {
            write_place(errors, path, *number)
        }
    }
}
