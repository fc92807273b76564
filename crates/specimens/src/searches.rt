// Searches over the sample book: over all its elements, layers of them and marked ones.
use crate::places::place;
use chain::{ChainSet, MarkedSet};
use listing::Place;
use markup::Refusal;
use pattern::Twig;
use rows::{BLANK, Row};
use search::Search;
use sheet::SheetView;
use std::alloc::Global;
use std::process::Abort;
use std::test::Fail;
use stream::layer::Narrowed;
use stream::{Band, LevelRange, Levels, POSITIONS, SkippingSet, Span, Window};

static SAMPLE: &[u8] = b"<b><p><n/></p><p></p></b>";

const SHEET_LEN: usize = 135;

// The sheet of the sample.
fn sheet_of(heap: Global) -> Result<Vec<u8>, Fail> {
    let mut sheet = vec![in heap; 0u8; SHEET_LEN]?;
    index::index(heap, SAMPLE, sheet.as_mut_slice())?;
    Ok(sheet)
}

// A view of the sheet, and the pattern.
fn opened<'b>(sheet: &'b [u8], pattern: &[u8]) -> Result<(SheetView<'b>, Twig), Fail> {
    let mut view = SheetView::new();
    view.open(sheet)?;
    let mut twig = Twig::new();
    twig.read(pattern)?;
    Ok((view, twig))
}

// The search of the pattern over the set gives these places, and then no more.
fn check_places<S: SkippingSet>(
    rt: &impl Abort,
    twig: &Twig,
    set: &mut S,
    places: &[Place],
) -> Result<(), Fail> {
    let mut rows = [BLANK; 16];
    let mut table = [place(&[]); 8];
    let mut search = Search::begin(twig, &mut rows);
    let gathered = search.gather(set);
    let listed = search.page(&mut table);
    let ended = search.page(&mut [place(&[])]);
    search.close();
    gathered?;
    if places.is_empty() {
        assert_eq!(rt; listed, Err(Refusal::ListedOut.at(0)));
    } else {
        assert_eq!(rt; table.get(..listed?), Some(places));
    }
    assert_eq!(rt; ended, Err(Refusal::ListedOut.at(0)));
    Ok(())
}

// The row of an element.
const fn row(start: u32, end: u32, level: u32) -> Row {
    Row { start, end, level }
}

// No note is a child of the book, but every edge is read as a descendant edge where the useful elements are told.
#[test]
fn useful_and_not_listed(rt: HostRuntime) -> Result<(), Fail> {
    let sheet = sheet_of(rt.alloc())?;
    let (view, twig) = opened(sheet.as_slice(), b"//b[p][n]")?;
    let mut set = ChainSet::new(view, &twig);
    let mut rows = [BLANK; 6];
    let mut search = Search::begin(&twig, &mut rows);
    let gathered = search.gather(&mut set);
    let listed = search.page(&mut [place(&[])]);
    search.close();
    gathered?;
    assert_eq!(rt; listed, Err(Refusal::ListedOut.at(0)));
    let filled = [
        row(0, 21, 0),
        BLANK,
        row(3, 10, 1),
        row(14, 17, 1),
        row(6, 8, 2),
        BLANK,
    ];
    assert_eq!(rt; rows, filled);
    Ok(())
}

// The levels from 0 to the largest number at each position, but at this one.
fn levels_at(position: usize, range: LevelRange) -> Levels {
    let mut levels = Levels {
        ranges: [LevelRange {
            lowest: 0,
            highest: u32::MAX,
        }; POSITIONS],
    };
    if let Some(there) = levels.ranges.get_mut(position) {
        *there = range;
    }
    levels
}

// Patterns, each with a span and its listing.
#[test]
fn windows(rt: HostRuntime) -> Result<(), Fail> {
    let sheet = sheet_of(rt.alloc())?;
    let cases: [(&[u8], Span, &[Place]); 5] = [
        (b"//p/n", Span { start: 1, end: 21 }, &[place(&[3, 6])]),
        (
            b"//p",
            Span { start: 1, end: 21 },
            &[place(&[3]), place(&[14])],
        ),
        // an element that starts before the span, or ends at its end, is not inside
        (b"//p", Span { start: 4, end: 21 }, &[place(&[14])]),
        (b"//p", Span { start: 3, end: 17 }, &[place(&[3])]),
        (b"//b//p", Span { start: 1, end: 21 }, &[]),
    ];
    for (pattern, rule, places) in cases {
        let (view, twig) = opened(sheet.as_slice(), pattern)?;
        let below = ChainSet::new(view, &twig);
        let mut set: Window<ChainSet> = Narrowed { below, rule };
        check_places(&rt, &twig, &mut set, places)?;
    }
    Ok(())
}

// `//b//n`, where the levels of node 1 are these, and its listing.
#[test]
fn bands(rt: HostRuntime) -> Result<(), Fail> {
    let sheet = sheet_of(rt.alloc())?;
    let (view, twig) = opened(sheet.as_slice(), b"//b//n")?;
    let cases: [(u32, u32, &[Place]); 5] = [
        (2, 2, &[place(&[0, 6])]),
        (0, u32::MAX, &[place(&[0, 6])]),
        (0, 1, &[]),
        (3, u32::MAX, &[]),
        // no level is between these
        (3, 1, &[]),
    ];
    for (lowest, highest, places) in cases {
        let rule = levels_at(1, LevelRange { lowest, highest });
        let below = ChainSet::new(view, &twig);
        let mut set: Band<ChainSet> = Narrowed { below, rule };
        check_places(&rt, &twig, &mut set, places)?;
    }
    Ok(())
}

#[test]
fn a_window_on_a_band(rt: HostRuntime) -> Result<(), Fail> {
    let sheet = sheet_of(rt.alloc())?;
    let (view, twig) = opened(sheet.as_slice(), b"//p")?;
    let range = LevelRange {
        lowest: 1,
        highest: 1,
    };
    let below: Band<ChainSet> = Narrowed {
        below: ChainSet::new(view, &twig),
        rule: levels_at(0, range),
    };
    let rule = Span { start: 11, end: 22 };
    let mut set: Window<Band<ChainSet>> = Narrowed { below, rule };
    check_places(&rt, &twig, &mut set, &[place(&[14])])
}

// Patterns, each with a mark byte for each element, in order, and its listing.
#[test]
fn marks(rt: HostRuntime) -> Result<(), Fail> {
    let sheet = sheet_of(rt.alloc())?;
    let cases: [(&[u8], &[u8], &[Place]); 6] = [
        (b"//b//p", &[1, 1, 1, 1], &[place(&[0, 3]), place(&[0, 14])]),
        (b"//b//p", &[1, 0, 0, 255], &[place(&[0, 14])]),
        (b"//b//p", &[0, 1, 1, 1], &[]),
        (b"//p/n", &[0, 1, 7, 0], &[place(&[3, 6])]),
        // an element without a mark byte is not marked, and a byte past the last element marks none
        (b"//b//p", &[1, 1], &[place(&[0, 3])]),
        (b"//p", &[0, 0, 0, 1, 1], &[place(&[14])]),
    ];
    for (pattern, marks, places) in cases {
        let (view, twig) = opened(sheet.as_slice(), pattern)?;
        let mut set = MarkedSet::new(view, &twig, marks);
        check_places(&rt, &twig, &mut set, places)?;
    }
    Ok(())
}
