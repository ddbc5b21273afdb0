//! A names part after a commit: what a name holds, and whether the part is a repository's.

use case_commits::{INPUT, KINDS, REPLIES, made_id, parts_after};
use gix_ref_file::MemoryFiles;
use history_check_names::survey_names;
use history_check_objects::whole_objects;
use history_store::Names;
use history_texts::OpenError;
use std::test::Fail;

#[test]
fn a_name_holds_its_commit(rt: HostRuntime) -> Result<(), Fail> {
    let alloc = rt.alloc();
    for kind in KINDS {
        let (_, files) = parts_after(alloc, kind, &[INPUT]).ok_or("no parts")?;
        let mut names = Names::new(alloc, files, kind);
        let text = names.read_packed(alloc)?;
        names.keep_packed(alloc, text)?;
        let found = names.find(alloc, b"refs/heads/main")?;
        assert!(rt; found == made_id(REPLIES.of(kind)));
    }
    Ok(())
}

#[test]
fn names_are_surveyed_over_objects(rt: HostRuntime) -> Result<(), Fail> {
    let alloc = rt.alloc();
    for kind in KINDS {
        let (objects, files) = parts_after(alloc, kind, &[INPUT]).ok_or("no parts")?;
        let whole = whole_objects(alloc, &objects, kind)?;
        let mut names = Names::new(alloc, files, kind);
        let branch = survey_names(alloc, &mut names, &whole.stored)?;
        assert!(rt; branch.as_slice() == b"refs/heads/main".as_slice());
        let none = whole_objects(alloc, &MemoryFiles::new(alloc), kind)?;
        let refused = survey_names(alloc, &mut names, &none.stored);
        assert!(rt; matches!(refused, Err(OpenError::Missing(..))));
    }
    Ok(())
}
