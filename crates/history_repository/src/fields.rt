//! The fields of a command: whether one is too long or no path, and those of its bytes that are kept.

ghost use Rattle.std.specs.Prelude.{◌≡◌, ℕ, length, nat_lt};
ghost use Rattle.history_model.specs.Bytes.{Bytes};
ghost use Rattle.history_model.specs.Causes.{is_bad_path};
ghost use Rattle.history_model.specs.Forms.{max_path};
ghost use Rattle.history_word.specs.Fields.{Keeps};
ghost use Rattle.history_repository.specs.Fields.{kept_bytes};

use history_files::is_file_path;
use history_word::Field;

/// Returns whether the path is invalid: over the limit, or with a zero byte or an empty name.
pub fn is_bad_path(path: &Field) -> bool
    ensures { (bytes : Bytes) → Keeps max_path path.now bytes → result ≡ is_bad_path bytes }
{
    match path {
        Field::Whole(path) => !is_file_path(path),
        Field::TooLong(_) => true,
    }
}

/// Returns whether the field is over its limit.
pub fn is_too_long(field: &Field) -> bool
    ensures { (limit : ℕ) (bytes : Bytes) → Keeps limit field.now bytes
        → result ≡ nat_lt limit (length bytes) }
{
    matches!(field, Field::TooLong(_))
}

/// Returns the bytes that are kept: all of a whole field, else the first 1,025.
pub fn kept(field: &Field) -> &[u8]
    ensures { result.now ≡ kept_bytes field.now }
{
    match field {
        Field::Whole(bytes) | Field::TooLong(bytes) => bytes,
    }
}

/// Returns the bytes that are kept, as [`kept`] does.
pub fn into_kept(field: Field) -> Vec<u8>
    ensures { result.items ≡ kept_bytes field }
{
    match field {
        Field::Whole(bytes) | Field::TooLong(bytes) => bytes,
    }
}
