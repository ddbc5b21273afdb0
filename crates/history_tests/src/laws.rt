//! Laws over the definitions: a function that calls one may promise what it says.

ghost use Rattle.history_edits.specs.EditCommits.{CommitMakes};
ghost use Rattle.history_edits.specs.EditPlans.{EditsReady};
ghost use Rattle.history_model.specs.laws.Rows.{Gives, first_stream, first_output};
ghost use Rattle.history_layout.specs.Passing.{CommitsStoreWhole};

use history_edits::laws;
use history_layout::passing;
use history_model::rows;

// What the stream means, computed on the definitions, is what git makes of it.
fn first_stream_gives()
    ensures { Gives first_stream first_output }
{
    rows::first_commit();
}

// A commit stores its objects in an order in which each beginning leaves a whole store.
fn commits_store_whole()
    ensures { CommitsStoreWhole }
{
    passing::commits_store_whole();
}

// Edits that are prepared, and then committed, are made.
fn edits_are_committed()
    ensures ready { EditsReady }
    ensures made { CommitMakes }
{
    laws::edits_ready();
    laws::commit_makes();
}

#[test]
fn laws_are_called() {
    first_stream_gives();
    commits_store_whole();
    edits_are_committed();
}
