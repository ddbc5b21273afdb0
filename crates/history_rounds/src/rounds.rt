//! A round: a repository is opened, a run is made over it, and what a fault left is recovered; or one more.

ghost use Rattle.std.specs.Prelude.{◌≡◌, ◌⊎◌, List, true, Err, Some};
ghost use Rattle.history_model.specs.Places.{Pair};
ghost use Rattle.history_model.specs.Rounds.{Round, AreRounds, last_left};
ghost use Rattle.history_model.specs.StandsFor.{StandsWhole};
ghost use Rattle.history_model.specs.Repository as plain;
ghost use Rattle.history_repository.specs.Causes.{IsOpenCause};
ghost use Rattle.history_repository.specs.Opened.{trees_of};
ghost use Rattle.history.specs.Runs.{MadeLastReading};
ghost use Rattle.history.specs.declared.running.RunError.TheVariants.{Read, Write};
ghost use Rattle.history_rounds.specs.Joined.{IfUnopened, MakesRound, GoesOn, ended_of, names_left, objects_left};

use gix_hash::Kind;
use gix_ref_file::Files;
use history::{End, OpenRefusal, RecoverError, Repository, RunError, Sink, Source, recover, run};
use std::alloc::Global;

/// What a round left: the two parts, and how its run ended.
#[derive(Drop)]
pub struct Made<F: Files> {
    pub objects: F,
    pub names: F,
    pub ended: Result<End, RunError>,
}

/// Why a round isn't whole.
#[derive(Drop)]
pub enum Unmade<F: Files> {
    /// The parts weren't opened, and are as they were.
    Unopened(OpenRefusal<F>),
    /// A command that changes files had a fault, and what it left is recovered only in part: it is
    /// to be recovered again.
    Unrecovered(Made<F>, RecoverError),
}

/// Opens two parts, runs over an input, and returns the parts: as the run left them, or recovered,
/// if a command that changes files had a fault.
///
/// For honest parts that represent a repository this is a round, to which the law `rounds` applies;
/// and so it is if the run is stopped at any moment and what is then left is recovered. Returns
/// `Unopened` if the parts aren't opened, such parts only for a fault, and `Unrecovered` if a call
/// of the recovery failed or memory ran out in it.
pub fn round<R: Source, W: Sink, F: Files>(
    alloc: Global,
    objects: F,
    names: F,
    kind: Kind,
    reader: &mut R,
    writer: &mut W,
) -> Result<Made<F>, Unmade<F>>
    ensures honest { F.is_honest objects → F.is_honest names
        → F.is_honest (objects_left result) × F.is_honest (names_left result) }
    ensures round { (r : plain.Repository) → F.is_honest objects → F.is_honest names
        → StandsWhole kind (trees_of F.history objects names) r
        → MakesRound F.history F.failures F.reading_may_fail R.left R.readings W.contents kind
        objects names reader.old reader.new writer.old writer.new r result }
    ensures read { ended_of result ≡ Some (Err Read) → (R.has_failed reader.new ≡ true)
        ⊎ MadeLastReading R.left R.readings reader.old reader.new }
    ensures write { ended_of result ≡ Some (Err Write) → W.has_failed writer.new ≡ true }
    ensures unopened { IfUnopened result (λ refusal. (refusal.objects ≡ objects)
        × (refusal.names ≡ names) × (reader.new ≡ reader.old) × (writer.new ≡ writer.old)) }
    ensures refused { F.is_honest objects → F.is_honest names → IfUnopened result (λ refusal.
        IsOpenCause F.reading_may_fail kind (trees_of F.history objects names) refusal.error) }
{
    let mut repository = match Repository::open(alloc, objects, names, kind) {
        Ok(repository) => repository,
        Err(refusal) => return Err(Unmade::Unopened(refusal)),
    };
    let ended = run(alloc, reader, writer, &mut repository);
    let has_failed = repository.has_failed();
    let (mut objects, mut names) = repository.into_parts();
    if !has_failed {
        return Ok(Made {
            objects,
            names,
            ended,
        });
    }
    match recover(alloc, &mut objects, &mut names, kind) {
        Ok(()) => Ok(Made {
            objects,
            names,
            ended,
        }),
        Err(error) => {
            let made = Made {
                objects,
                names,
                ended,
            };
            Err(Unmade::Unrecovered(made, error))
        }
    }
}

/// One more round, after any rounds, each of which was stopped or ended: the same call as
/// [`round`], with its errors.
///
/// After rounds from a pair that represents a whole repository, of which the last left these parts,
/// steps and stops of the plain repository explain what all rounds and this one replied, wrote and
/// left, wherever its run is stopped; and what is left represents a whole repository again.
pub fn round_after<R: Source, W: Sink, F: Files>(
    alloc: Global,
    objects: F,
    names: F,
    kind: Kind,
    reader: &mut R,
    writer: &mut W,
) -> Result<Made<F>, Unmade<F>>
    ensures honest { F.is_honest objects → F.is_honest names
        → F.is_honest (objects_left result) × F.is_honest (names_left result) }
    ensures headline { (pair : Pair) (rounds : List Round) (r : plain.Repository)
        → F.is_honest objects → F.is_honest names
        → StandsWhole kind pair r → AreRounds kind pair rounds
        → trees_of F.history objects names ≡ last_left pair rounds
        → GoesOn F.history F.failures F.reading_may_fail R.left R.readings W.contents kind
        objects names reader.old reader.new writer.old writer.new pair rounds r result }
    ensures unopened { IfUnopened result (λ refusal. (refusal.objects ≡ objects)
        × (refusal.names ≡ names) × (reader.new ≡ reader.old) × (writer.new ≡ writer.old)) }
{
    round(alloc, objects, names, kind, reader, writer)
}
