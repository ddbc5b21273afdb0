//! What an opened repository replies and plans.

use case_commits::{
    INPUT, KINDS, LISTED, SECOND, SECOND_REPLY, first_command, made_id, opened_after,
};
use history::Command;
use history_plans::plan_commit;
use history_queries::list_files;

#[test]
fn a_reply_lists_the_files(rt: HostRuntime) {
    let alloc = rt.alloc();
    for kind in KINDS {
        let repository = opened_after(alloc, kind, &[INPUT]).expect(&rt, "not opened");
        let Ok(text) = list_files(&repository, alloc, b"main") else {
            panic!(rt; "no reply")
        };
        assert!(rt; text.as_slice() == LISTED.of(kind));
    }
}

#[test]
fn a_plan_has_the_commit(rt: HostRuntime) {
    let alloc = rt.alloc();
    for kind in KINDS {
        let repository = opened_after(alloc, kind, &[INPUT]).expect(&rt, "not opened");
        let Some(Command::Commit(command)) = first_command(alloc, SECOND) else {
            panic!(rt; "no commit")
        };
        let Ok(plan) = plan_commit(&repository, alloc, command) else {
            panic!(rt; "no plan")
        };
        assert!(rt; plan.moves.name.as_slice() == b"refs/heads/main".as_slice());
        assert!(rt; Some(plan.moves.entry.after) == made_id(SECOND_REPLY.of(kind)));
    }
}
