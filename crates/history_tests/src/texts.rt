//! The text of a commit.

use history::{Kind, ObjectId};
use history_store::ObjectKind;
use history_texts::{Actor, NewObject, commit_bytes, plain_commit};
use std::test::Fail;

// The id is that of git's commit without files.
#[test]
fn a_commit_has_gits_text(rt: HostRuntime) -> Result<(), Fail> {
    let alloc = rt.alloc();
    let tree = ObjectId::empty_tree(Kind::Sha1);
    let author = Actor::parse(alloc, b"A <a@b> 1 +0000")?.ok_or("no actor")?;
    let committer = author.try_clone()?;
    let message = Vec::from_slice(alloc, b"one")?;
    let commit = plain_commit(alloc, tree, Vec::new(alloc), author, committer, message);
    let text = commit_bytes(alloc, &commit)?.ok_or("no text")?;
    let object = NewObject::new(Kind::Sha1, ObjectKind::Commit, text);
    assert!(rt; object.content.len() == 99);
    assert!(rt; object.id == ObjectId::from_hex(b"d39b036c797dcd9c0210b66a094ee846a3bc4fd9")?);
    Ok(())
}
