//! What follows for tags that own their parts.

ghost use Rattle.std.specs.Prelude.{◌≡◌, None, IfSome, FitsSigned};
ghost use Rattle.std.specs.Int.{w64};
ghost use Rattle.gix_hash.specs.Id.{id_of};
ghost use Rattle.gix_object_lines.specs.Writes.{cause_of};
ghost use Rattle.gix_object_tag.specs.OwnedText.{own_parts, is_bad_actor};
ghost use Rattle.gix_object_tag.specs.Tag.{SpellsTag};
ghost use Rattle.gix_object_tag.specs.TagText.{tag_text, tag_refusal};

use crate::Tag;
use gix_hash::laws::printed_id_reads_back;
use gix_object_lines::lines::Actor;

/// What is written of a tag that isn't refused spells its parts, with ids of its target's kind; so
/// it is read back to them. The contract is the law.
pub fn owned_written_is_read(tag: &Tag)
    ensures { cause_of (tag_refusal (own_parts tag.now) (is_bad_actor tag.now.tagger)) ≡ None
        → SpellsTag (id_of tag.now.target).kind (tag_text (own_parts tag.now)) (own_parts tag.now) }
{
    let _bytes = tag.target.as_slice();
    printed_id_reads_back(&tag.target);
    seconds_fit(&tag.tagger);
}

// The seconds of a time are a number of 64 bits.
fn seconds_fit(tagger: &Option<Actor>)
    ensures { IfSome tagger.now (λ actor. FitsSigned w64 actor.time.seconds) }
{
    if let Some(actor) = tagger {
        let _seconds = actor.time.seconds;
    }
}
