//! The ids of a commit's tree and parents.

ghost use Rattle.std.specs.Prelude.{◌≡◌, IsTrue, map};
ghost use Rattle.std.specs.List.{list_all};
ghost use Rattle.bstr.specs.BStr.{bstr_bytes};
ghost use Rattle.gix_hash.specs.Id.{id_of};
ghost use Rattle.gix_hash.specs.Views.{IsHexOfId};
ghost use Rattle.gix_object_lines.specs.HexLine.{is_id};

use crate::commit::CommitRef;
use bstr::BStr;
use gix_hash::ObjectId;
use gix_object_lines::hex_line::id_of_digits;

impl<'a> CommitRef<'a> {
    ghost use Rattle.gix_object_commit.specs.Parents.{digits_left};
    ghost use Rattle.gix_object_commit.specs.Views.{parts_of};

    /// The tree's id. The tree must be an id's digits, as it is in each commit that was read.
    pub fn tree(&self) -> ObjectId
        requires { IsTrue (is_id (parts_of self.now).tree) }
        ensures { IsHexOfId (parts_of self.now).tree (id_of result) }
    {
        id_of_digits(self.tree.as_bytes())
    }

    /// The parents' ids, in order. The parents must be ids' digits, as they are in each commit that
    /// was read.
    pub fn parents(&self) -> Parents<'_, 'a>
        requires { IsTrue (list_all is_id (parts_of self.now).parents) }
        ensures { digits_left result ≡ (parts_of self.now).parents }
    {
        Parents {
            digits: self.parents.as_slice(),
            place: 0,
        }
    }
}

/// The ids of a commit's parents, in order.
#[derive(Debug, Clone, Copy)]
pub struct Parents<'c, 'a> {
    digits: &'c [BStr<'a>],
    place: usize,
    ghost are_ids: { IsTrue (list_all is_id (map bstr_bytes digits.now)) },
}

impl<'c, 'a> Iterator for Parents<'c, 'a> {
    ghost use Rattle.std.specs.Iterator.{item_count};
    ghost use Rattle.gix_object_commit.specs.Parents.{digits_left, GivesId};

    type Item = ObjectId;

    ghost next_gives = { GivesId };

    ghost remaining = { item_count digits_left };

    fn next(&mut self) -> Option<ObjectId> {
        let digits = self.digits.get(self.place)?;
        self.place += 1;
        Some(id_of_digits(digits.as_bytes()))
    }
}
