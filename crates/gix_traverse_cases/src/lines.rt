//! Lines of commits and of walks over them.

use crate::history::History;
use crate::numbers::{number, put_each, put_ids, read_ids};
use crate::shown::{put_found, set_of};
use crate::topo;
use crate::walks::{Asked, given, given_refusing, parents_of};
use case_words::Page;
use gix_traverse_commit::simple::{CommitTimeOrder, Sorting};
use gix_traverse_commit::{Parents, WalkError, breadth_first};
use std::alloc::Global;

/// Adds the answer to a line. `None` if it is no case, or if no memory is left.
pub fn put_answer(
    alloc: Global,
    history: &mut History,
    family: &str,
    line: &str,
    page: &mut Page,
) -> Option<()> {
    let words: Vec<&str> = line.split(' ').collect(alloc).ok()?;
    let word = words.as_slice();
    match *word.first()? {
        "history" => *history = History::new(alloc),
        "commit" => history.add_commit(alloc, word)?,
        "row" => history.add_row(alloc, word)?,
        "graph" => {
            history.make_graph(alloc, page);
            return Some(());
        }
        _ => return put_walk(alloc, history, family, word, page),
    }
    page.text(*word.first()?);
    Some(())
}

fn put_walk(
    alloc: Global,
    history: &History,
    family: &str,
    word: &[&str],
    page: &mut Page,
) -> Option<()> {
    match (family, *word.first()?) {
        ("topo", order) => topo::put_given(alloc, history, read_asked(word)?, topo_of(order), page),
        ("walk", "orders") => put_one_set(alloc, history, word, page),
        ("walk", "simple") => put_calls(alloc, history, word, page),
        ("commit", "simple") => put_given(alloc, history, word, page),
        ("commit", "breadth") => put_breadth(alloc, history, word, page),
        _ => None,
    }
}

// Along which parents, the tips and the hidden commits.
fn read_asked<'a>(word: &[&'a str]) -> Option<Asked<'a>> {
    Some(Asked {
        parents: parents_of(*word.get(1)?),
        tips: *word.get(2)?,
        hidden: *word.get(3)?,
    })
}

fn topo_of(order: &str) -> gix_traverse_topo::Sorting {
    if order == "date" {
        gix_traverse_topo::Sorting::DateOrder
    } else {
        gix_traverse_topo::Sorting::TopoOrder
    }
}

// The order by time of this name; breadth order of another.
fn sorting_of(order: &str) -> Sorting {
    match order {
        "newest" | "newest-since" => Sorting::ByCommitTime(CommitTimeOrder::NewestFirst),
        "oldest" | "oldest-since" => Sorting::ByCommitTime(CommitTimeOrder::OldestFirst),
        _ => Sorting::BreadthFirst,
    }
}

// The order by time with this cutoff, `-` for none.
fn since(sorting: Sorting, seconds: &str) -> Option<Sorting> {
    match sorting {
        Sorting::ByCommitTime(order) if seconds != "-" => {
            let seconds = seconds.parse::<i64>().ok()?;
            Some(Sorting::ByCommitTimeCutoff { order, seconds })
        }
        _ => Some(sorting),
    }
}

// A walk in breadth order: along which parents, the tips and the hidden commits.
fn put_breadth(alloc: Global, history: &History, word: &[&str], page: &mut Page) -> Option<()> {
    let asked = read_asked(word)?;
    let tips = read_ids(alloc, asked.tips)?;
    let hidden = read_ids(alloc, asked.hidden)?;
    let graph = history.graph.as_ref()?;
    match breadth_first(
        alloc,
        graph,
        tips.as_slice(),
        hidden.as_slice(),
        asked.parents,
    ) {
        Ok(listed) => put_each(listed.as_slice(), page),
        Err(WalkError::Missing(id)) => page.put_between("missing ", number(&id), ""),
        Err(WalkError::Memory) => page.text("memory"),
    }
    Some(())
}

// A walk of `Simple`: along which parents, the tips, the hidden commits, how it is made or in which
// order by time it goes, what is shown of its commits, and its cutoff.
fn put_given(alloc: Global, history: &History, word: &[&str], page: &mut Page) -> Option<()> {
    let order = *word.get(4)?;
    let seconds = match word.get(6) {
        Some(seconds) => *seconds,
        None => "-",
    };
    let sorting = since(sorting_of(order), seconds)?;
    let found = given(
        alloc,
        history,
        read_asked(word)?,
        sorting,
        order == "filtered",
    )?;
    put_found(alloc, *word.get(5)?, found.infos.as_slice(), page)
}

// A walk of `Simple`: the tips, and the builder's calls, up to the word `end`, before which its
// commits are shown; after `lookups` how many objects it looked up, and of a predicate that refuses
// some the commits that it was called for.
fn put_calls(alloc: Global, history: &History, word: &[&str], page: &mut Page) -> Option<()> {
    let mut asked = Asked {
        tips: *word.get(1)?,
        hidden: "-",
        parents: Parents::All,
    };
    let mut sorting = Sorting::BreadthFirst;
    let mut refused = None;
    let mut is_counted = false;
    for call in word.get(2..)? {
        match call.split_once('=') {
            Some(("refuse", ids)) => refused = Some(ids),
            Some(("hide", hidden)) => asked.hidden = hidden,
            Some((order, seconds)) => sorting = since(sorting_of(order), seconds)?,
            None => match *call {
                "end" => {}
                "lookups" => is_counted = true,
                "first" => asked.parents = Parents::First,
                order => sorting = sorting_of(order),
            },
        }
        put_call(*call, page);
    }
    put_walked(alloc, history, asked, sorting, refused, is_counted, page)
}

// The result of a builder's call is shown where the call is made.
fn put_call(call: &str, page: &mut Page) {
    if call != "end" && call != "lookups" && !call.starts_with("refuse=") {
        page.text(call);
        page.text(" ");
    }
}

fn put_walked(
    alloc: Global,
    history: &History,
    asked: Asked<'_>,
    sorting: Sorting,
    refused: Option<&str>,
    is_counted: bool,
    page: &mut Page,
) -> Option<()> {
    let mut noted = Vec::new(alloc);
    let found = match refused {
        Some(ids) => given_refusing(alloc, history, asked, sorting, ids, &mut noted)?,
        None => given(alloc, history, asked, sorting, false)?,
    };
    put_found(alloc, "order", found.infos.as_slice(), page)?;
    page.text("end");
    if is_counted {
        page.put_between(" lookups ", found.lookups, "");
    }
    if refused.is_some() {
        page.text(" asked ");
        put_ids(noted.as_slice(), page);
    }
    Some(())
}

// The commits that a walk lists, ascending, if all five orders list the same; otherwise `differ`.
fn put_one_set(alloc: Global, history: &History, word: &[&str], page: &mut Page) -> Option<()> {
    let asked = Asked {
        tips: *word.get(1)?,
        hidden: *word.get(2)?,
        parents: Parents::All,
    };
    let first = set(alloc, history, asked, "breadth")?;
    for order in ["newest", "oldest", "date", "topo"] {
        if set(alloc, history, asked, order)?.as_slice() != first.as_slice() {
            page.text("differ");
            return Some(());
        }
    }
    put_ids(first.as_slice(), page);
    Some(())
}

fn set(
    alloc: Global,
    history: &History,
    asked: Asked<'_>,
    order: &str,
) -> Option<Vec<gix_hash::ObjectId>> {
    match order {
        "date" | "topo" => topo::set(alloc, history, asked, topo_of(order)),
        _ => {
            let given = given(alloc, history, asked, sorting_of(order), false)?;
            set_of(alloc, given.infos.as_slice())
        }
    }
}
