//! The command `log`.

ghost use Rattle.std.specs.Prelude.{◌≡◌, List, Some, None, map, IfOk, MatchResult};
ghost use Rattle.std.specs.List.{filter_map, list_any, AllZip};
ghost use Rattle.gix_hash.specs.Id.{id_of};
ghost use Rattle.history_model.specs.Bytes.{Bytes};
ghost use Rattle.history_model.specs.Causes.{is_bad_path, wants_all_parents};
ghost use Rattle.history_model.specs.Replies.{reply_text, LogIs};
ghost use Rattle.history_word.specs.Commands.{ArePaths, IsOrder, IsLog, IsLogItem};
ghost use Rattle.history_repository.specs.Meanings.{words_cause, commit_in};
ghost use Rattle.history_repository.specs.Fields.{kept_bytes};
ghost use Rattle.history_queries.specs.Logs.{IsOrderOf, IsSince, meanings_in, order_cause, since_cause, AreEnds};
ghost use Rattle.history_repository.specs.Reads.{OnlyAnswers, ReadsMore};
ghost use Rattle.history_repository.specs.Stands.{Stands};
ghost use Rattle.history_queries.specs.Walked.{Walks};
ghost use Rattle.history_model.specs.Commands as model;
ghost use Rattle.history_model.specs.Repository as plain;

use crate::differing::differing;
use crate::reading::{Walk, commits};
use gix_hash::{Kind, ObjectId};
use gix_ref_file::Files;
use history_model::Cause;
use history_repository::{
    ReadObjects, Repository, Stopped, WordMeaning, is_bad_path, kept, read_word, test_all,
};
use history_store::{hex_digits, parse_time};
use history_walks::{self as walks, Parents, Request};
use history_word::{Field, LogCommand, LogItem, Order, line};
use std::alloc::{AllocError, Global};

/// What the words of a log's items read as.
#[derive(Drop)]
struct Ends {
    tips: Vec<WordMeaning>,
    hidden: Vec<WordMeaning>,
}

impl Ends {
    /// Tests that the words mean commits. Otherwise returns the cause, as `test_all` does.
    fn test(&self) -> Result<(), Cause>
        ensures { MatchResult result (λ _. words_cause (meanings_in self.now) ≡ None)
            (λ cause. words_cause (meanings_in self.now) ≡ Some cause) }
    {
        test_all(&self.tips, &self.hidden)
    }
}

/// Returns the commits that words mean.
fn ids_of(alloc: Global, words: &[WordMeaning]) -> Result<Vec<ObjectId>, AllocError>
    ensures { IfOk result (λ ids. ids.items ≡ filter_map commit_in words.now) }
{
    let mut ids = Vec::new(alloc);
    ids.extend(words.iter().filter_map(|word| word.id()))?;
    Ok(ids)
}

/// Returns the seconds of an order's cutoff, if it has one; `BadTime` if its word isn't a number of
/// seconds.
fn since_of(order: &Order) -> Result<Option<i64>, Cause>
    ensures { (line : model.Order) → IsOrder order.now line → MatchResult result
        (λ since. (since_cause line ≡ None) × IsSince line since)
        (λ cause. since_cause line ≡ Some cause) }
{
    match order {
        Order::NewestSince(word) | Order::OldestSince(word) => {
            let time = parse_time(word, b"+0000").ok_or(Cause::BadTime)?;
            Ok(Some(time.seconds))
        }
        _ => Ok(None),
    }
}

/// Returns whether all parents of a commit must be followed in this order.
fn wants_all_parents(order: &Order, hides: bool) -> bool
    ensures { (line : model.Order) → IsOrder order.now line
        → result ≡ wants_all_parents line hides }
{
    match order {
        Order::Breadth => false,
        Order::Date | Order::Topological => hides,
        _ => true,
    }
}

/// Returns the order of a walk. The error is `BadTime` if the cutoff isn't a number of seconds, and
/// else `OrderWithParents` if only first parents are to be followed in an order that wants all.
fn order_of(order: &Order, first_parents: bool, hides: bool) -> Result<walks::Order, Cause>
    ensures { (line : model.Order) → IsOrder order.now line → MatchResult result
        (λ walk. (order_cause line first_parents hides ≡ None)
        × IsOrderOf line first_parents walk)
        (λ cause. order_cause line first_parents hides ≡ Some cause) }
{
    let since = since_of(order)?;
    if first_parents && wants_all_parents(order, hides) {
        return Err(Cause::OrderWithParents);
    }
    let parents = if first_parents {
        Parents::First
    } else {
        Parents::All
    };
    Ok(match order {
        Order::Breadth => walks::Order::Breadth(parents),
        Order::Newest | Order::NewestSince(_) => walks::Order::Newest { since },
        Order::Oldest | Order::OldestSince(_) => walks::Order::Oldest { since },
        Order::Date => walks::Order::Date(parents),
        Order::Topological => walks::Order::Topological(parents),
    })
}

/// Returns whether one of a log's paths is invalid.
fn tells_bad_path(paths: &[Field]) -> bool
    ensures { (told : List Bytes) → ArePaths paths.now told → result ≡ list_any is_bad_path told }
{
    paths.iter().any(|path| is_bad_path(path))
}

/// Returns the bytes that are kept of each of some fields.
fn kept_each<'a>(alloc: Global, fields: &'a [Field]) -> Result<Vec<&'a [u8]>, AllocError>
    ensures { IfOk result (λ each. map (λ bytes. bytes.now) each.items
        ≡ map kept_bytes fields.now) }
{
    let mut each = Vec::new(alloc);
    let mut rest = fields;
    while let Some((field, others)) = rest.split_first() {
        each.push(kept(field))?;
        rest = others;
    }
    Ok(each)
}

/// Returns the text that lists commits.
fn log_text(alloc: Global, ids: &[ObjectId]) -> Result<Vec<u8>, AllocError>
    ensures { IfOk result (λ text. text.items ≡ reply_text (LogIs (map id_of ids.now))) }
{
    let mut text = Vec::new(alloc);
    let mut count = itoa::Buffer::new();
    line(
        &mut text,
        &[
            b"ok".as_slice(),
            b"log".as_slice(),
            count.format(ids.len()).as_bytes(),
        ],
    )?;
    for id in ids {
        let mut digits = Kind::hex_buf();
        line(&mut text, &[hex_digits(id, &mut digits)])?;
    }
    Ok(text)
}

/// Returns what the words of a log's items read as: those of the tips, and those of the hidden
/// commits.
///
/// All of the words are read, each object once, and none is refused. It is a fault if a call of the
/// files failed, or if no memory is left.
fn read_ends<F: Files>(
    repository: &Repository<F>,
    alloc: Global,
    read: &mut ReadObjects,
    items: &[LogItem],
) -> Result<Ends, Stopped>
    ensures { (r : plain.Repository) (lines : List model.LogItem)
        → Stands F.is_honest F.history repository.now r → AllZip IsLogItem items.now lines
        → ReadsMore F.reading_may_fail r read.old read.new (AreEnds r lines) result }
{
    let mut tips = Vec::new(alloc);
    let mut hidden = Vec::new(alloc);
    for item in items {
        match item {
            LogItem::Tip(word) => tips.push(read_word(repository, alloc, read, word)?)?,
            LogItem::Hidden(word) => hidden.push(read_word(repository, alloc, read, word)?)?,
        }
    }
    Ok(Ends { tips, hidden })
}

/// Returns the commits of a log's walk, whatever its paths: those that its tips reach and no hidden
/// one reaches, in its order.
///
/// It is refused for the first of these causes that holds: `UnknownWord`, `AmbiguousWord`,
/// `UnbornHead` or `NotACommit` if a word means no commit, `BadPath` if a path is invalid,
/// `BadTime` if the cutoff isn't a number of seconds, and `OrderWithParents` if only first parents
/// are to be followed in an order that wants all. It is a fault if a call of the files failed, or
/// if no memory is left.
fn walked<F: Files>(
    repository: &Repository<F>,
    alloc: Global,
    command: &LogCommand,
) -> Result<Walk, Stopped>
    ensures { (r : plain.Repository) (sent : model.LogCommand)
        → Stands F.is_honest F.history repository.now r → IsLog command.now sent
        → Walks F.reading_may_fail r sent result }
{
    let mut read = ReadObjects::keeping(alloc);
    let ends = read_ends(repository, alloc, &mut read, &command.items)?;
    ends.test()?;
    if tells_bad_path(&command.paths) {
        return Err(Stopped::Refused(Cause::BadPath));
    }
    let hides = !ends.hidden.is_empty();
    let request = Request {
        order: order_of(&command.order, command.first_parents, hides)?,
        tips: ids_of(alloc, &ends.tips)?,
        hidden: ids_of(alloc, &ends.hidden)?,
    };
    // With paths each commit is compared with its first parent: then what the walk reads is kept.
    let keeps = !command.paths.is_empty();
    commits(repository, alloc, read.into_contents(), request, keeps)
}

/// Returns the reply to `log`: the commits of its walk, and with paths only those that differ at
/// one of them from their first parents, each on a line.
///
/// It is refused for the first of these causes that holds: `UnknownWord`, `AmbiguousWord`,
/// `UnbornHead` or `NotACommit` if a word means no commit, `BadPath` if a path is invalid,
/// `BadTime` if the cutoff isn't a number of seconds, and `OrderWithParents` if only first parents
/// are to be followed in an order that wants all. It is a fault if a call of the files failed, or
/// if no memory is left.
pub fn log<F: Files>(
    repository: &Repository<F>,
    alloc: Global,
    command: &LogCommand,
) -> Result<Vec<u8>, Stopped>
    ensures { (r : plain.Repository) (sent : model.LogCommand)
        → Stands F.is_honest F.history repository.now r → IsLog command.now sent
        → OnlyAnswers F.reading_may_fail r (model.Log sent) result }
{
    let walked = walked(repository, alloc, command)?;
    if command.paths.is_empty() {
        return Ok(log_text(alloc, &walked.ids)?);
    }
    let paths = kept_each(alloc, &command.paths)?;
    let listed = differing(repository, alloc, &walked.read, &walked.ids, &paths)?;
    Ok(log_text(alloc, &listed)?)
}
