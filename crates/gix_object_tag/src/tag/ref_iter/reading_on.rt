//! What the tokens to come hold.

ghost use Rattle.std.specs.Prelude.{IfOk, IfErr};
ghost use Rattle.gix_object_tag.specs.ReadingOn.{TakesTarget, TellsTagger, TellsNoTagger};
ghost use Rattle.gix_object_tag.specs.Tokens.{place_of};
ghost use Rattle.gix_object_tag.specs.Views.{tagger_of};

use crate::tag::ref_iter::{Stage, TagRefIter, Token};
use gix_hash::ObjectId;
use gix_object_lines::decode::Error;
use gix_object_lines::lines::ActorRef;

impl<'a> TagRefIter<'a> {
    /// The target's id, from the token that comes next. Returns `FieldName` if another token comes
    /// next or none does, and otherwise that token's error.
    pub fn target_id(self) -> Result<ObjectId, Error>
        ensures { TakesTarget (place_of self.entry) result }
    {
        let mut tokens = self;
        match tokens.next().ok_or(Error::FieldName)?? {
            Token::Target { id } => Ok(id),
            _ => Err(Error::FieldName),
        }
    }

    /// Who made the tag, and when, from the tokens to come; `None` if the tag doesn't say, or ends
    /// after its name. Returns `FieldName` if the input ends before its name or the tagger's token
    /// has been given, and otherwise the error of the first token that has one.
    pub fn tagger(self) -> Result<Option<ActorRef<'a>>, Error>
        ensures read { IfOk result
            (λ tagger. TellsTagger (place_of self.entry) (tagger_of tagger)) }
        ensures refused { IfErr result (λ error. TellsNoTagger (place_of self.entry) error) }
    {
        let mut tokens = self;
        'tokens: while let Some(token) = tokens.next() {
            if let Token::Tagger(tagger) = token? {
                return Ok(tagger);
            }
        }
        match tokens.stage {
            Stage::Tagger => Ok(None),
            _ => Err(Error::FieldName),
        }
    }
}
