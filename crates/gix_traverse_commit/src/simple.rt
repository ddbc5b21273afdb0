//! `Simple`: sets a walk's predicate, order, parents, hidden commits and rows; then `next`, lookups, content.

ghost use Rattle.std.specs.Prelude.{◌≡◌, List, Contains, [], IfOk, IfErr, IsOk, true};
ghost use Rattle.std.specs.Iterator.{at_most};
ghost use Rattle.gix_hash.specs.Id.{Id};
ghost use Rattle.gix_hash.specs.declared.object_id.ObjectId.{ObjectId};
ghost use Rattle.gix_object_commit.specs.Tokens.{place_of, start};
ghost use Rattle.gix_traverse_graph.specs.Commits.{Commits};
ghost use Rattle.gix_traverse_commit_known.specs.Meeting.{AsksOnce};
ghost use Rattle.gix_traverse_commit_known.specs.Asked.{Asked, IsKnown};
ghost use Rattle.gix_traverse_commit.specs.Simply.{HasAhead, IsAskedAnew, IsMade, IsUnderWay, IsOver, KeepsReading, ReadsFrom, answers_left, predicate_of, source_of, objects_of, graph_of, lookups_of, content_of, kind_of};
ghost use Rattle.gix_traverse_commit.specs.Giving.{IsAccepted, IsSorted, GivesNext};
ghost use Rattle.gix_traverse_commit_known.specs.Faults.{TipFault};
ghost use Rattle.gix_traverse_commit_known.specs.Told.{rows_of};
ghost use Rattle.gix_traverse_graph.specs.declared.parents.Parents.TheVariants.{All as AllParents};
ghost use Rattle.gix_traverse_graph.specs.declared.sorting.Sorting.TheVariants.{BreadthFirst};
ghost use Rattle.gix_traverse_commit_known.specs.declared.faults.Error.TheVariants.{Memory};

mod steps;
mod timed;

/// The orders of a walk.
pub mod sorting {
    pub use gix_traverse_graph::sorting::{
        CommitTimeOrder, Sorting, Timing, is_in_time, shown_time, time_order,
    };
}

/// The commits that wait in a walk by time, by their numbers, in the order of their times.
pub mod waiting {
    pub use gix_traverse_commit_known::waiting::{Pending, Turn, Waiting};
}

use gix_hash::{Kind, ObjectId};
use gix_object_commit::CommitRefIter;
use gix_object_lookup::FindInto;
pub use gix_traverse_commit_known::faults::{Error, HiddenGraphError};
use gix_traverse_commit_known::fetch::Source;
use gix_traverse_commit_known::known::Known;
use gix_traverse_commit_known::meet::ask_tips;
use gix_traverse_commit_known::{Accept, All};
pub use gix_traverse_graph::sorting::{CommitTimeOrder, Sorting};
use gix_traverse_graph::{Graph, Info, Parents};
use std::alloc::Global;

/// A walk over the commits that some tips reach, past none that the predicate refuses or a hidden
/// commit reaches, each once.
///
/// In breadth order first the tips come in their order, without repeats, then the parents of what
/// came, in their order. In an order by time the newest, or the oldest, of the tips and of the
/// parents of what came is next. With `Parents::First` a walk goes in breadth order.
///
/// After an error it gives nothing more.
#[derive(Drop)]
pub struct Simple<F, P> {
    source: Source<F>,
    predicate: P,
    parents: Parents,
    sorting: Sorting,
    tips: Vec<ObjectId>,
    hidden: Vec<ObjectId>,
    known: Known,
    begun: bool,
    kind: Kind,
}

impl<F: FindInto + Drop> Simple<F, All> {
    /// A walk from these tips along all parents, which reads commits from these objects. Returns
    /// `Memory` if there is no memory for the walk.
    pub fn new(tips: Vec<ObjectId>, find: F) -> Result<Simple<F, All>, Error>
        ensures source { IfOk result (ReadsFrom find) }
        ensures made { IfOk result (IsMade (λ _ _. true) (record {
          tips = tips.items;
          hidden = [];
          parents = AllParents;
          sorting = BreadthFirst;
          accepts = λ _. true;
        })) }
        ensures refused { IfErr result (λ error. error ≡ Memory) }
    {
        Simple::filtered(tips, find, All)
    }
}

impl<F: FindInto + Drop, P: Accept + Drop> Simple<F, P> {
    /// A walk that gives only the commits that the predicate accepts, and doesn't go on to the
    /// parents of one that it refuses. The predicate is called for each tip here, and for each
    /// other commit when the walk first meets it as a parent of one that comes, unless it is
    /// hidden. Returns `Memory` if there is no memory for the walk.
    pub fn filtered(tips: Vec<ObjectId>, find: F, mut predicate: P) -> Result<Simple<F, P>, Error>
        ensures source { IfOk result (ReadsFrom find) }
        ensures made { IfOk result (IsMade P.accepts (record {
          tips = tips.items;
          hidden = [];
          parents = AllParents;
          sorting = BreadthFirst;
          accepts = P.accepts predicate;
        })) }
        ensures asked { IfOk result (λ walk. AsksOnce P.goes (Contains tips.items) predicate
            (predicate_of walk)) }
        ensures refused { IfErr result (λ error. error ≡ Memory) }
    {
        let alloc: Global = *tips.allocator();
        let mut known = Known::new(alloc);
        ask_tips(&mut known, &mut predicate, tips.as_slice())?;
        Ok(Simple {
            source: Source {
                objects: find,
                rows: None,
                buffer: Vec::new(alloc),
                lookups: 0,
            },
            predicate,
            parents: Parents::All,
            sorting: Sorting::BreadthFirst,
            tips,
            hidden: Vec::new(alloc),
            known,
            begun: false,
            kind: Kind::Sha1,
        })
    }

    /// The same walk in this order; the last call before the first commit decides. An order by time
    /// reads the time of each tip that the predicate accepts, in their order. The error is that of
    /// the first tip whose time can't be read: `Find` if the id has no commit, `ObjectDecode` if
    /// the object has no committer's time, and `Memory` if there is no memory for the lookup. After
    /// an error there is no walk any more.
    ///
    /// After the first commit this begins the rest anew, as each builder call but `commit_graph`
    /// does: a walk whose tips are what is queued, in the order in which that was queued, and which
    /// goes to no other commit that was met. A walk that is over stays over, and is never refused.
    pub fn sorting(mut self, sorting: Sorting) -> Result<Simple<F, P>, Error>
        ensures reads { IfOk result (KeepsReading self) }
        ensures anew { IfOk result (IsAskedAnew self) }
        ensures made { (a : Asked) → HasAhead P.accepts a self → IfOk result (IsSorted P.accepts
            (F.is_honest (objects_of self)) (F.table (objects_of self)) sorting a self) }
        ensures refused { (a : Asked) → HasAhead P.accepts a self → IfErr result (TipFault
            (F.is_honest (objects_of self)) (F.may_fail (objects_of self)) (rows_of (graph_of self))
            (F.table (objects_of self)) a.tips (IsAccepted a)) }
        ensures still { IsOver self → IfOk result (λ walk. lookups_of walk ≡ lookups_of self) }
        ensures whole { IsOver self → IsOk result }
    {
        self.begin_anew();
        self.make_tips()?;
        self.read_tips(sorting)?;
        self.sorting = sorting;
        Ok(self)
    }

    /// The same walk along these parents. After the first commit this begins the rest anew.
    pub fn parents(mut self, parents: Parents) -> Simple<F, P>
        ensures source { source_of result ≡ source_of self }
        ensures anew { IsAskedAnew self result }
        ensures made { (a : Asked) → HasAhead P.accepts a self
            → IsMade P.accepts (record a { parents = parents }) result }
    {
        self.begin_anew();
        self.parents = parents;
        self
    }

    /// The same walk without these commits and all that they reach, in place of those that were
    /// hidden before. It is never refused. After the first commit this begins the rest anew.
    pub fn hide(mut self, tips: Vec<ObjectId>) -> Result<Simple<F, P>, Error>
        ensures source { IfOk result (λ walk. source_of walk ≡ source_of self) }
        ensures anew { IfOk result (IsAskedAnew self) }
        ensures made { (a : Asked) → HasAhead P.accepts a self
            → IfOk result (IsMade P.accepts (record a { hidden = tips.items })) }
        ensures whole { IsOk result }
    {
        self.begin_anew();
        self.hidden = tips;
        Ok(self)
    }

    /// The same walk with these rows, which are read before the objects.
    pub fn commit_graph(mut self, rows: Option<Graph>) -> Simple<F, P>
        ensures same { result ≡ record self { source = record (source_of self) { rows = rows } } }
        ensures made { (a : Asked) → IsMade P.accepts a self → IsMade P.accepts a result }
        ensures going { (ids : List Id) (g : Commits ObjectId) (a : Asked) (listed : List ObjectId)
            → ((x : ObjectId) → Contains listed x → IsKnown (rows_of rows) ids x)
            → IsUnderWay P.accepts ids g a listed self
            → IsUnderWay P.accepts ids g a listed result }
    {
        self.source.rows = rows;
        self
    }

    /// How many objects the walk looked up so far.
    pub fn lookups(&self) -> usize
        ensures { result ≡ lookups_of self.now }
    {
        self.source.lookups
    }

    /// The content of the commit that was given last, if it was read from its object; otherwise
    /// nothing, also before the first commit and after an error.
    pub fn commit_data(&self) -> &[u8]
        ensures { result.now ≡ content_of self.now }
    {
        self.source.buffer.as_slice()
    }

    /// A reader of the parts of the commit that was given last, if it was read from its object;
    /// otherwise of nothing.
    pub fn commit_iter(&self) -> CommitRefIter<'_>
        ensures { place_of result ≡ start (kind_of self.now) (content_of self.now) }
    {
        CommitRefIter::from_bytes(self.commit_data(), self.kind)
    }
}

impl<F: FindInto + Drop, P: Accept + Drop> Iterator for Simple<F, P> {
    type Item = Result<Info, Error>;

    ghost next_gives = { λ before item after. GivesNext P.accepts P.goes
        (F.is_honest before.source.objects) (F.may_fail before.source.objects)
        (F.table before.source.objects) (F.ids before.source.objects) before item after };

    ghost remaining = { λ walk. at_most (answers_left (F.ids (objects_of walk)) walk) };

    /// The next commit; `None` if all are given, or an error was. Returns an error if the commit
    /// isn't found or isn't read, if the hidden commits aren't painted, and if no memory is left.
    fn next(&mut self) -> Option<Result<Info, Error>> {
        if let Err(error) = self.begin() {
            self.stop();
            return Some(Err(error));
        }
        let Some(id) = self.take() else {
            self.finish();
            return None;
        };
        match self.enter(id) {
            Ok(info) => Some(Ok(info)),
            Err(error) => {
                self.stop();
                Some(Err(error))
            }
        }
    }
}
