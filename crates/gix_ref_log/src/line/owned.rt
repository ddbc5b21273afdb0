//! Copies of lines: an owned line of a borrowed one (`to_owned`), and of an owned one (`try_clone`).

ghost use Rattle.std.specs.Prelude.{◌≡◌, IfOk, IfErr};
ghost use Rattle.gix_ref_log.specs.LogOwned.{IsLineOf, OwningFault};
ghost use Rattle.gix_ref_log.specs.LogViews.{parts_of};

use crate::{Line, LineRef};
use gix_object_lines::decode::Error;
use gix_object_lines::hex_line::own_id;
use gix_object_lines::text::own_text;
use std::alloc::{AllocError, Global};

impl LineRef<'_> {
    /// The line with copies of its parts. Returns `HexDigits` if one of the ids is no id's digits,
    /// and otherwise `InvalidTime` if the text of the time is none; neither happens for a line that
    /// was read. Returns `Memory` if no memory is left.
    pub fn to_owned(self, alloc: Global) -> Result<Line, Error>
        ensures own { IfOk result (IsLineOf (parts_of self.entry)) }
        ensures refused { IfErr result (OwningFault (parts_of self.entry)) }
    {
        let previous_oid = own_id(self.previous_oid)?;
        let new_oid = own_id(self.new_oid)?;
        let signature = self.signature.to_owned(alloc)?;
        let message = own_text(alloc, self.message)?;
        Ok(Line {
            previous_oid,
            new_oid,
            signature,
            message,
        })
    }
}

impl Line {
    /// A line of the same values.
    pub fn try_clone(&self) -> Result<Line, AllocError>
        ensures { IfOk result (λ copy. copy ≡ self.now) }
    {
        Ok(Line {
            previous_oid: self.previous_oid,
            new_oid: self.new_oid,
            signature: self.signature.try_clone()?,
            message: self.message.try_clone()?,
        })
    }
}
