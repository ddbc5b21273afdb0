//! The types of a log's line, `Line` and `LineRef`, and the ids that a borrowed line's digits spell.

ghost use Rattle.std.specs.Prelude.{◌≡◌, IfOk, IfErr, IsTrue};
ghost use Rattle.bstr.specs.BStr.{bstr_bytes};
ghost use Rattle.gix_hash.specs.Id.{id_of};
ghost use Rattle.gix_hash.specs.Views.{IsHexOfId};
ghost use Rattle.gix_object_lines.specs.HexLine.{is_id};

pub mod decode;
mod owned;
pub mod write;

use bstr::BStr;
use gix_hash::ObjectId;
use gix_object_lines::ByteString;
use gix_object_lines::lines::{Actor, ActorRef};

/// An update of a reference, as a line of its log records it.
#[derive(Debug, Drop, PartialEq, Eq)]
pub struct Line {
    /// The id that the reference held before, and the null id if it was made.
    pub previous_oid: ObjectId,
    /// The id that it held afterwards.
    pub new_oid: ObjectId,
    /// Who made the update, and when.
    pub signature: Actor,
    /// Why; it may be empty.
    pub message: ByteString,
}

/// A line of a log whose parts are borrowed from it.
#[derive(Debug, Clone, Copy, PartialEq, Eq)]
pub struct LineRef<'a> {
    /// The hexadecimal digits of the id that the reference held before.
    pub previous_oid: BStr<'a>,
    /// The hexadecimal digits of the id that it held afterwards.
    pub new_oid: BStr<'a>,
    /// Who made the update, and when.
    pub signature: ActorRef<'a>,
    /// Why: all after the first tab, and nothing if the line has none.
    pub message: BStr<'a>,
}

impl LineRef<'_> {
    /// The id that the reference held before. The digits must be an id's, as they are in each line
    /// that was read.
    pub fn previous_oid(&self) -> ObjectId
        requires { IsTrue (is_id (bstr_bytes self.now.previous_oid)) }
        ensures { IsHexOfId (bstr_bytes self.now.previous_oid) (id_of result) }
    {
        ObjectId::from_hex(self.previous_oid.as_bytes()).unwrap()
    }

    /// The id that the reference held afterwards. The digits must be an id's, as they are in each
    /// line that was read.
    pub fn new_oid(&self) -> ObjectId
        requires { IsTrue (is_id (bstr_bytes self.now.new_oid)) }
        ensures { IsHexOfId (bstr_bytes self.now.new_oid) (id_of result) }
    {
        ObjectId::from_hex(self.new_oid.as_bytes()).unwrap()
    }
}
