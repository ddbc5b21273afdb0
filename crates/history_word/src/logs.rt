//! Parses what follows `log`: the order, whether by first parents, tips, hidden words, and sizes of paths.

ghost use Rattle.std.specs.Prelude.{◌≡◌, ◌≢◌, List, [], ◌∷◌, codes, Some, IfSome, IfNone, option_map};
ghost use Rattle.history_model.specs.Bytes.{Bytes};
ghost use Rattle.history_model.specs.Commands as model;
ghost use Rattle.history_model.specs.Spelling.{item_target};
ghost use Rattle.history_word.specs.Commands.{ArePaths, IsLog, IsLogItem};
ghost use Rattle.history_word.specs.LineTable.{order_of, first_parents_of, item_of, items_of, paths_of, log_of_words};
ghost use Rattle.history_word.specs.Drafts.{IsLogLine, SaysLog, SaysOrder, SaysItems, item_with, with_paths};
ghost use Rattle.history_word.specs.Sizes.{listed};
ghost use Rattle.history_word.specs.Words.{left};

use crate::command::{Field, LogCommand, LogItem, Order};
use crate::draft::pushed;
use crate::heading::kept;
use crate::sizes::Sizes;
use crate::words::{Words, number};
use std::alloc::Global;

/// A line of `log`, and the sizes of the paths that follow it. The order or the items are `None` if
/// memory ran out for them.
#[derive(Drop)]
pub(crate) struct LogLine {
    order: Option<Order>,
    first_parents: bool,
    items: Option<Vec<LogItem>>,
    pub(crate) paths: Sizes,
}

impl LogLine {
    /// Reads what follows `log`: `<order> <all or first> <items>`, and any number of times `path
    /// <size>`.
    pub(crate) fn new(alloc: Global, words: &mut Words) -> Option<Self>
        ensures { SaysLog result (log_of_words (left words.old)) }
    {
        let order = order(alloc, words)?;
        let first_parents = first_parents(words.next()?)?;
        let (items, paths) = items(alloc, words)?;
        Some(LogLine {
            order,
            first_parents,
            items,
            paths,
        })
    }

    /// Returns the command with these paths, if there was memory for them and for the line's words.
    pub(crate) fn finish(self, paths: Option<Vec<Field>>) -> Option<LogCommand>
        ensures { (sent : model.LogCommand) (told : List Bytes) → IsLogLine self sent
            → IfSome paths (λ all. ArePaths all.items told)
            → IfSome result (λ log. IsLog log (with_paths sent told)) }
    {
        Some(LogCommand {
            order: self.order?,
            first_parents: self.first_parents,
            items: self.items?,
            paths: paths?,
        })
    }
}

/// Takes a word for an order, and the seconds after it if the order has some. Returns `Some(None)`
/// if memory ran out for these, and `None` if the words begin with no order.
fn order(alloc: Global, words: &mut Words) -> Option<Option<Order>>
    ensures { SaysOrder result (order_of (left words.old)) (left words.new) }
{
    let first = words.next()?;
    if first == b"breadth".as_slice() {
        Some(Some(Order::Breadth))
    } else if first == b"newest".as_slice() {
        Some(Some(Order::Newest))
    } else if first == b"oldest".as_slice() {
        Some(Some(Order::Oldest))
    } else if first == b"newest-since".as_slice() {
        let seconds = words.next()?;
        Some(kept(alloc, seconds).map(Order::NewestSince))
    } else if first == b"oldest-since".as_slice() {
        let seconds = words.next()?;
        Some(kept(alloc, seconds).map(Order::OldestSince))
    } else if first == b"date".as_slice() {
        Some(Some(Order::Date))
    } else if first == b"topological".as_slice() {
        Some(Some(Order::Topological))
    } else {
        None
    }
}

/// Returns whether only first parents are followed: `first` or `all`. Any other word is `None`.
fn first_parents(word: &[u8]) -> Option<bool>
    ensures { result ≡ first_parents_of word.now }
{
    if word == b"first".as_slice() {
        Some(true)
    } else if word == b"all".as_slice() {
        Some(false)
    } else {
        None
    }
}

/// Takes the words that are left: items, of which at least one is a tip, and then the sizes of
/// paths. The items are `None` if memory ran out for them. Other words are `None`.
fn items(alloc: Global, words: &mut Words) -> Option<(Option<Vec<LogItem>>, Sizes)>
    ensures { SaysItems result (items_of (left words.old)) }
{
    let mut items = Some(Vec::new(alloc));
    let mut has_tip = false;
    let mut paths = Sizes::new();
    while let Some(word) = words.next() {
        if word == b"path".as_slice() {
            paths = path_sizes(words)?;
            break;
        }
        let (is_tip, target) = item(word)?;
        has_tip |= is_tip;
        items = pushed(items, log_item(alloc, is_tip, target));
    }
    if has_tip { Some((items, paths)) } else { None }
}

/// Takes the sizes after a word `path`: `<size>`, and any number of times `path <size>`.
fn path_sizes(words: &mut Words) -> Option<Sizes>
    ensures { option_map listed result ≡ paths_of (codes "path" ∷ left words.old) }
{
    let mut sizes = Sizes::new();
    sizes.add(number(words.next()?)?);
    while let Some(word) = words.next() {
        if word != b"path".as_slice() {
            return None;
        }
        sizes.add(number(words.next()?)?);
    }
    Some(sizes)
}

/// Returns whether the item is a tip, and its target: `+` and a word, or `-` and a word.
fn item(word: &[u8]) -> Option<(bool, &[u8])>
    ensures found { IfSome result (λ item. item_of word.now ≡ Some (item_with item.0 item.1.now)) }
    ensures nonempty { IfSome result (λ item. item.1.now ≢ []) }
    ensures none { IfNone result ((item : model.LogItem)
        → item_of word.now ≡ Some item → item_target item ≡ []) }
{
    let (sign, target) = word.split_first()?;
    if target.is_empty() {
        None
    } else if *sign == b'+' {
        Some((true, target))
    } else if *sign == b'-' {
        Some((false, target))
    } else {
        None
    }
}

/// Returns a tip or a hidden word, if there is memory for it.
fn log_item(alloc: Global, is_tip: bool, target: &[u8]) -> Option<LogItem>
    ensures { IfSome result (λ item. IsLogItem item (item_with is_tip target.now)) }
{
    let word = kept(alloc, target)?;
    Some(if is_tip {
        LogItem::Tip(word)
    } else {
        LogItem::Hidden(word)
    })
}
