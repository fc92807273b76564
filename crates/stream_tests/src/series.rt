// The sets of `//p//n` over a small book, and layers on them.
use chain::{ChainSet, MarkedSet};
use pattern::Twig;
use sheet::SheetView;
use std::alloc::Global;
use std::process::Abort;
use std::test::Fail;
use stream::layer::Narrowed;
use stream::set::{SkippingSet, StreamSet};
use stream::{Band, LevelRange, Levels, Region, Span, Window, walk};

static TEXT: &[u8] = b"<b><p><n/><p><n/></p></p><p></p></b>";

const OUTER: Region = Region {
    start: 3,
    end: 21,
    level: 1,
};

const INNER: Region = Region {
    start: 10,
    end: 17,
    level: 2,
};

const TOP: Region = Region {
    start: 0,
    end: 32,
    level: 0,
};

const LAST: Region = Region {
    start: 25,
    end: 28,
    level: 1,
};

const FIRST_NOTE: Region = Region {
    start: 6,
    end: 8,
    level: 2,
};

const SECOND_NOTE: Region = Region {
    start: 13,
    end: 15,
    level: 3,
};

// The sheet of the book.
fn sheet_of(rt: &impl Abort, heap: Global) -> Result<Vec<u8>, Fail> {
    let mut bytes = vec![in heap; 0u8; 200]?;
    let len = index::index(heap, TEXT, bytes.as_mut_slice())?;
    assert!(rt; len == 167);
    bytes.truncate(len);
    Ok(bytes)
}

// A view of the sheet, and the pattern.
fn opened<'b>(sheet: &'b [u8], text: &[u8]) -> Result<(SheetView<'b>, Twig), Fail> {
    let mut view = SheetView::new();
    view.open(sheet)?;
    let mut twig = Twig::new();
    twig.read(text)?;
    Ok((view, twig))
}

// The chain set of the pattern over the sheet.
fn chains<'b>(sheet: &'b [u8], text: &[u8]) -> Result<ChainSet<'b>, Fail> {
    let (view, twig) = opened(sheet, text)?;
    Ok(ChainSet::new(view, &twig))
}

// The marked set of `//p//n` over the sheet.
fn marked<'b>(sheet: &'b [u8], marks: &'b [u8]) -> Result<MarkedSet<'b>, Fail> {
    let (view, twig) = opened(sheet, b"//p//n")?;
    Ok(MarkedSet::new(view, &twig, marks))
}

// Takes list i away and compares it.
fn check_list<S: SkippingSet>(rt: &impl Abort, set: &mut S, i: usize, list: &[Region]) {
    for r in list {
        assert_eq!(rt; set.tell(i), Some(*r));
        assert_eq!(rt; set.tell(i), Some(*r));
        set.advance(i);
    }
    assert_eq!(rt; set.tell(i), None);
    set.advance(i);
    assert_eq!(rt; set.tell(i), None);
}

#[test]
fn chain_set(rt: HostRuntime) -> Result<(), Fail> {
    let sheet = sheet_of(&rt, rt.alloc())?;
    let mut set = chains(sheet.as_slice(), b"//p//n")?;
    check_list(&rt, &mut set, 0, &[OUTER, INNER, LAST]);
    check_list(&rt, &mut set, 1, &[FIRST_NOTE, SECOND_NOTE]);
    check_list(&rt, &mut set, 2, &[]);
    check_list(&rt, &mut set, 16, &[]);
    let mut set = chains(sheet.as_slice(), b"/b[x]//n")?;
    check_list(&rt, &mut set, 0, &[TOP]);
    check_list(&rt, &mut set, 1, &[]);
    assert!(rt; walk::count(&mut set, 2) == 2);
    Ok(())
}

#[test]
fn skips(rt: HostRuntime) -> Result<(), Fail> {
    let sheet = sheet_of(&rt, rt.alloc())?;
    let mut set = chains(sheet.as_slice(), b"//p//n")?;
    set.skip_beyond(0, 2);
    assert_eq!(rt; set.tell(0), Some(OUTER));
    set.skip_beyond(0, 3);
    assert_eq!(rt; set.tell(0), Some(INNER));
    set.skip_beyond(0, 25);
    check_list(&rt, &mut set, 0, &[]);
    // the other list is as it was
    assert!(rt; set.skip_to_ancestor(1, 7));
    assert_eq!(rt; set.tell(1), Some(FIRST_NOTE));
    assert!(rt; !set.skip_to_ancestor(1, 8));
    check_list(&rt, &mut set, 1, &[SECOND_NOTE]);
    let mut set = chains(sheet.as_slice(), b"//p")?;
    assert!(rt; set.skip_to_ancestor(0, 13));
    assert_eq!(rt; set.tell(0), Some(OUTER));
    assert!(rt; !set.skip_to_ancestor(0, 3));
    assert_eq!(rt; set.tell(0), Some(INNER));
    assert!(rt; !set.skip_to_ancestor(0, 30));
    assert_eq!(rt; set.tell(0), None);
    Ok(())
}

#[test]
fn band(rt: HostRuntime) -> Result<(), Fail> {
    let sheet = sheet_of(&rt, rt.alloc())?;
    let mut rule = Levels {
        ranges: [LevelRange {
            lowest: 1,
            highest: 1,
        }; 16],
    };
    rule.ranges[1].highest = 2;
    let below = chains(sheet.as_slice(), b"//p//n")?;
    let mut set: Band<ChainSet> = Narrowed { below, rule };
    check_list(&rt, &mut set, 1, &[FIRST_NOTE]);
    assert!(rt; !set.skip_to_ancestor(0, 22));
    check_list(&rt, &mut set, 0, &[LAST]);
    rule.ranges[0].lowest = 2;
    let below = chains(sheet.as_slice(), b"//p//n")?;
    let mut set: Band<ChainSet> = Narrowed { below, rule };
    check_list(&rt, &mut set, 0, &[]);
    Ok(())
}

#[test]
fn window_over_a_band(rt: HostRuntime) -> Result<(), Fail> {
    let sheet = sheet_of(&rt, rt.alloc())?;
    let below = chains(sheet.as_slice(), b"//p//n")?;
    let mut set: Window<ChainSet> = Narrowed {
        below,
        rule: Span { start: 4, end: 28 },
    };
    assert!(rt; set.skip_to_ancestor(0, 11));
    check_list(&rt, &mut set, 0, &[INNER]);
    check_list(&rt, &mut set, 1, &[FIRST_NOTE, SECOND_NOTE]);
    let below: Band<ChainSet> = Narrowed {
        below: chains(sheet.as_slice(), b"//p//n")?,
        rule: Levels {
            ranges: [LevelRange {
                lowest: 2,
                highest: u32::MAX,
            }; 16],
        },
    };
    let mut set: Window<Band<ChainSet>> = Narrowed {
        below,
        rule: Span { start: 7, end: 29 },
    };
    set.skip_beyond(0, 9);
    assert_eq!(rt; set.tell(0), Some(INNER));
    assert!(rt; walk::count(&mut set, 0) == 1 && walk::count(&mut set, 1) == 1);
    Ok(())
}

// What a series of calls makes of a set's lists, worked out by hand.
struct Series<'a> {
    // List 0, and list 0 with its first region taken away.
    parts: &'a [Region],
    fewer_parts: &'a [Region],
    // Whether the first region of these that halts a skip to 12 is around it.
    is_around: bool,
    // Of list 0 what starts beyond 12, and of list 1 what starts beyond 6.
    late_parts: &'a [Region],
    notes: &'a [Region],
    late_notes: &'a [Region],
}

const OF_CHAINS: Series = Series {
    parts: &[OUTER, INNER, LAST],
    fewer_parts: &[INNER, LAST],
    is_around: true,
    late_parts: &[LAST],
    notes: &[FIRST_NOTE, SECOND_NOTE],
    late_notes: &[SECOND_NOTE],
};

// Elements 1, 3 and 4 are marked.
static MARKS: &[u8] = &[0, 1, 0, 255, 7, 0];

const OF_MARKED: Series = Series {
    parts: &[OUTER, INNER],
    fewer_parts: &[INNER],
    is_around: true,
    late_parts: &[],
    notes: &[SECOND_NOTE],
    late_notes: &[SECOND_NOTE],
};

// Level 1 at position 0 and level 2 at position 1.
const OF_BAND: Series = Series {
    parts: &[OUTER, LAST],
    fewer_parts: &[LAST],
    is_around: false,
    late_parts: &[LAST],
    notes: &[FIRST_NOTE],
    late_notes: &[],
};

// From 4 on, ending before 28.
const OF_WINDOW: Series = Series {
    parts: &[INNER],
    fewer_parts: &[],
    is_around: false,
    late_parts: &[],
    notes: &[FIRST_NOTE, SECOND_NOTE],
    late_notes: &[SECOND_NOTE],
};

// Runs the series over a fresh set.
fn check_series<S: SkippingSet>(rt: &impl Abort, set: &mut S, series: &Series) {
    assert_eq!(rt; set.tell(0), series.parts.first().copied());
    assert_eq!(rt; set.tell(1), series.notes.first().copied());
    // each first region of list 0 is around 12
    assert!(rt; set.skip_to_ancestor(0, 12));
    assert_eq!(rt; set.tell(0), series.parts.first().copied());
    set.advance(0);
    assert_eq!(rt; set.tell(0), series.fewer_parts.first().copied());
    assert!(rt; set.skip_to_ancestor(0, 12) == series.is_around);
    assert_eq!(rt; set.tell(0), series.fewer_parts.first().copied());
    set.skip_beyond(0, 12);
    assert_eq!(rt; set.tell(0), series.late_parts.first().copied());
    assert!(rt; walk::count(set, 0) == series.late_parts.len());
    assert_eq!(rt; set.tell(1), series.notes.first().copied());
    set.skip_beyond(1, 6);
    check_list(rt, set, 1, series.late_notes);
    assert!(rt; walk::count(set, 0) == 0 && walk::count(set, 2) == 0);
}

#[test]
fn one_series(rt: HostRuntime) -> Result<(), Fail> {
    let sheet = sheet_of(&rt, rt.alloc())?;
    let sheet = sheet.as_slice();
    check_series(&rt, &mut chains(sheet, b"//p//n")?, &OF_CHAINS);
    check_series(&rt, &mut marked(sheet, MARKS)?, &OF_MARKED);
    let mut rule = Levels {
        ranges: [LevelRange {
            lowest: 1,
            highest: 1,
        }; 16],
    };
    rule.ranges[1] = LevelRange {
        lowest: 2,
        highest: 2,
    };
    let below = chains(sheet, b"//p//n")?;
    let mut band: Band<ChainSet> = Narrowed { below, rule };
    check_series(&rt, &mut band, &OF_BAND);
    let below = chains(sheet, b"//p//n")?;
    let mut window: Window<ChainSet> = Narrowed {
        below,
        rule: Span { start: 4, end: 28 },
    };
    check_series(&rt, &mut window, &OF_WINDOW);
    Ok(())
}

#[test]
fn marked_set(rt: HostRuntime) -> Result<(), Fail> {
    let sheet = sheet_of(&rt, rt.alloc())?;
    let sheet = sheet.as_slice();
    let mut set = marked(sheet, MARKS)?;
    check_list(&rt, &mut set, 0, &[OUTER, INNER]);
    check_list(&rt, &mut set, 1, &[SECOND_NOTE]);
    check_list(&rt, &mut set, 2, &[]);
    check_list(&rt, &mut set, 16, &[]);
    // elements from 3 on have no mark byte
    let mut set = marked(sheet, &[1, 1, 1])?;
    check_list(&rt, &mut set, 0, &[OUTER]);
    check_list(&rt, &mut set, 1, &[FIRST_NOTE]);
    let mut set = marked(sheet, &[0; 6])?;
    check_list(&rt, &mut set, 0, &[]);
    check_list(&rt, &mut set, 1, &[]);
    let mut set = marked(sheet, &[])?;
    check_list(&rt, &mut set, 0, &[]);
    // a set is copied with its lists
    let fresh = marked(sheet, MARKS)?;
    let mut set = fresh;
    set.advance(0);
    assert_eq!(rt; set.tell(0), Some(INNER));
    set = fresh;
    check_list(&rt, &mut set, 0, &[OUTER, INNER]);
    Ok(())
}

#[test]
fn band_over_marks(rt: HostRuntime) -> Result<(), Fail> {
    let sheet = sheet_of(&rt, rt.alloc())?;
    let mut set: Band<MarkedSet> = Narrowed {
        below: marked(sheet.as_slice(), MARKS)?,
        rule: Levels {
            ranges: [LevelRange {
                lowest: 2,
                highest: 3,
            }; 16],
        },
    };
    assert!(rt; set.skip_to_ancestor(0, 12));
    check_list(&rt, &mut set, 0, &[INNER]);
    assert!(rt; walk::count(&mut set, 1) == 1);
    Ok(())
}
