//! A list of commits over stored objects.

use case_commits::{INPUT, KINDS, REPLIES, SECOND, SECOND_REPLY, made_id, parts_after};
use history::Objects;
use history_walks::{Order, Parents, Request, list_commits};
use std::test::Fail;

#[test]
fn a_commit_is_listed_before_its_parent(rt: HostRuntime) -> Result<(), Fail> {
    let alloc = rt.alloc();
    for kind in KINDS {
        let (objects, _) = parts_after(alloc, kind, &[INPUT, SECOND]).ok_or("no parts")?;
        let objects = Objects::open(alloc, objects, kind).map_err(|refusal| refusal.error)?;
        let parent = made_id(REPLIES.of(kind)).ok_or("no id")?;
        let tip = made_id(SECOND_REPLY.of(kind)).ok_or("no id")?;
        let request = Request {
            order: Order::Topological(Parents::All),
            tips: vec![in alloc; tip]?,
            hidden: Vec::new(alloc),
        };
        let ids = list_commits(alloc, &objects, None, request)?;
        assert!(rt; ids.as_slice() == [tip, parent].as_slice());
    }
    Ok(())
}
