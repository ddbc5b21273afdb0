//! Who made a commit, and when.

ghost use Rattle.std.specs.Prelude.{◌≡◌, Ok, IfOk, IsOkUnless};
ghost use Rattle.bstr.specs.BStr.{bstr_bytes};
ghost use Rattle.gix_object_lines.specs.Time.{SpellsTime};
ghost use Rattle.gix_object_lines.specs.declared.lines.time.Time.{Time};
ghost use Rattle.gix_object_lines.specs.declared.decode.Error.TheVariants.{InvalidTime};

use crate::commit::CommitRef;
use gix_object_lines::decode::Error;
use gix_object_lines::lines::{ActorRef, Time, read_time};

impl<'a> CommitRef<'a> {
    /// Who made the change, and when.
    pub fn author(&self) -> ActorRef<'a>
        ensures { result ≡ self.now.author }
    {
        self.author
    }

    /// Who committed it, and when.
    pub fn committer(&self) -> ActorRef<'a>
        ensures { result ≡ self.now.committer }
    {
        self.committer
    }

    /// When it was committed. Returns `InvalidTime` if the committer's text is no time, which never
    /// happens after `from_bytes`.
    pub fn time(&self) -> Result<Time, Error>
        ensures told { IfOk result (SpellsTime (bstr_bytes self.now.committer.time)) }
        ensures every { (time : Time) → SpellsTime (bstr_bytes self.now.committer.time) time
            → result ≡ Ok time }
        ensures refused { IsOkUnless result InvalidTime }
    {
        let CommitRef { committer, .. } = self;
        read_time(committer.time.as_bytes())
    }
}
