// Series of calls on a search.
ghost use Rattle.std.specs.Prelude.{◌≡◌, ◌∷◌, length, map, min, take, drop};
ghost use Rattle.pattern.specs.Twig.{shape_of};
ghost use Rattle.search.specs.Runs.{Log, Event};
ghost use Rattle.search.specs.Kept.{Kept};
ghost use Rattle.replay.specs.Series.{done_answer, count_answer, places_of, Called, Replayed};

use listing::Place;
use markup::Fault;
use pattern::Twig;
use rows::Row;
use search::Search;
use stream::{SkippingSet, StreamSet};

// A call of a series. A page has so many places of the series' table.
#[derive(Clone, Copy, Debug, PartialEq, Eq)]
pub enum Step {
    Gather,
    Page(usize),
    Rewind,
}

// What a call answered.
#[derive(Clone, Copy, Debug, PartialEq, Eq)]
pub enum Answer {
    Done,
    Count(usize),
    Refused(Fault),
}

impl Step {
    // How many places it has.
    fn places(self) -> usize
        ensures { result ≡ places_of self }
    {
        match self {
            Step::Page(places) => places,
            Step::Gather | Step::Rewind => 0,
        }
    }
}

impl From<Result<(), Fault>> for Answer {
    ghost from_gives = { λ r a. a ≡ done_answer r };

    fn from(r: Result<(), Fault>) -> Answer {
        match r {
            Ok(()) => Answer::Done,
            Err(f) => Answer::Refused(f),
        }
    }
}

impl From<Result<usize, Fault>> for Answer {
    ghost from_gives = { λ r a. a ≡ count_answer r };

    fn from(r: Result<usize, Fault>) -> Answer {
        match r {
            Ok(count) => Answer::Count(count),
            Err(f) => Answer::Refused(f),
        }
    }
}

// Makes one call on a set and its places.
fn make<S: SkippingSet>(
    search: &mut Search<'_, '_>,
    call: Step,
    set: &mut S,
    places: &mut [Place],
) -> Answer
    ensures twig { search.new.twig ≡ search.old.twig }
    ensures holds { search.new.rows.ghost_name ≡ search.old.rows.ghost_name }
    ensures length { length search.new.rows.now ≡ length search.old.rows.now }
    ensures book { S.StreamSet.book set.new ≡ S.StreamSet.book set.old }
    ensures law { (log : Log) → Kept search.old log → (e : Event)
        × Called call (S.StreamSet.lists set.old) places.old result (S.StreamSet.lists set.new) places.new e
        × Kept search.new (e ∷ log) }
{
    match call {
        Step::Gather => Answer::from(search.gather(set)),
        Step::Page(_) => Answer::from(search.page(places)),
        Step::Rewind => Answer::from(search.rewind()),
    }
}

// Begins a search, makes the calls of a series in turn, and closes the search. Call i meets set i, its answer is answer i, and a page has the
// next places of the table. Ends where the calls, the sets or the answers do, and answers how many calls were made.
pub fn replay<S: SkippingSet>(
    twig: &Twig,
    rows: &mut [Row],
    calls: &[Step],
    sets: &mut [S],
    table: &mut [Place],
    answers: &mut [Answer],
) -> usize
    ensures count { result ≡ min (min (length calls.now) (length sets.old)) (length answers.old) }
    ensures sets { drop result sets.new ≡ drop result sets.old }
    ensures books { map S.StreamSet.book sets.new ≡ map S.StreamSet.book sets.old }
    ensures answers { drop result answers.new ≡ drop result answers.old }
    ensures law { Replayed (shape_of twig.now) (length rows.old) (take result calls.now)
        (map S.StreamSet.lists (take result sets.old)) table.old
        (take result answers.new) (map S.StreamSet.lists (take result sets.new)) table.new rows.new }
{
    let n = calls.len().min(sets.len()).min(answers.len());
    let mut search = Search::begin(twig, rows);
    let mut used = 0;
    for i in 0..n {
        let end = used + calls[i].places().min(table.len() - used);
        answers[i] = make(&mut search, calls[i], &mut sets[i], &mut table[used..end]);
        used = end;
    }
    search.close();
    n
}
