// Examples worked out by hand.
use crate::books::book_of;
use gather::gather;
use listing::Place;
use markup::Refusal;
use markup::Refusal::{FewRows, Gathered, ListedOut};
use pattern::Twig;
use rows::{BLANK, Row};
use search::Search;
use std::alloc::Global;
use std::process::Abort;
use std::test::Fail;
use stream::{POSITIONS, Region, SkippingSet, StreamSet};
use test_sets::{Listed, Member};

// The numbers of a row.
type Numbers = (u32, u32, u32);

const NONE: Numbers = (u32::MAX, u32::MAX, u32::MAX);

// A pattern; a book as a text, and the name of each node of the pattern in it; and what a gather answers and leaves in the rows.
struct Example {
    pattern: &'static [u8],
    book: &'static [u8],
    names: &'static [u8],
    answer: Result<(), (Refusal, usize)>,
    rows: &'static [Numbers],
}

static EXAMPLES: [Example; 15] = [
    // One region in two lists, in shares that are exactly full, one too small, and one too large with a row left over.
    Example {
        pattern: b"//a//a",
        book: b"raaa))))",
        names: b"aa",
        answer: Ok(()),
        rows: &[(1, 6, 1), (2, 5, 2), (2, 5, 2), (3, 4, 3)],
    },
    Example {
        pattern: b"//a//a",
        book: b"raaa))))",
        names: b"aa",
        answer: Err((FewRows, 4)),
        rows: &[NONE, NONE, NONE],
    },
    Example {
        pattern: b"//a//a",
        book: b"raaa))))",
        names: b"aa",
        answer: Ok(()),
        rows: &[(1, 6, 1), (2, 5, 2), NONE, (2, 5, 2), (3, 4, 3), NONE, NONE],
    },
    // A root that is marked top.
    Example {
        pattern: b"/a//a",
        book: b"aaa)))",
        names: b"aa",
        answer: Ok(()),
        rows: &[(0, 5, 0), NONE, (1, 4, 1), (2, 3, 2)],
    },
    Example {
        pattern: b"/b//a",
        book: b"rba)))",
        names: b"ba",
        answer: Ok(()),
        rows: &[NONE, NONE],
    },
    Example {
        pattern: b"/a",
        book: b"aa)a))",
        names: b"a",
        answer: Ok(()),
        rows: &[(0, 5, 0)],
    },
    // No rows, where none is useful and where one is.
    Example {
        pattern: b"//a/b",
        book: b"ra)b))",
        names: b"ab",
        answer: Ok(()),
        rows: &[],
    },
    Example {
        pattern: b"//a",
        book: b"ra))",
        names: b"a",
        answer: Err((FewRows, 1)),
        rows: &[],
    },
    // A child edge is read as a descendant edge.
    Example {
        pattern: b"//a/b",
        book: b"rarb))))",
        names: b"ab",
        answer: Ok(()),
        rows: &[(1, 6, 1), (3, 4, 3)],
    },
    // A branch without which its region is of no use.
    Example {
        pattern: b"//a[b]//c",
        book: b"rab)c))ab)))",
        names: b"abc",
        answer: Ok(()),
        rows: &[(1, 6, 1), (2, 3, 2), (4, 5, 2)],
    },
    Example {
        pattern: b"//a[.//b][.//c]",
        book: b"rab)ac)b))))",
        names: b"abc",
        answer: Ok(()),
        rows: &[(1, 10, 1), (4, 9, 2), (2, 3, 2), (7, 8, 3), (5, 6, 3), NONE],
    },
    // One region in three lists.
    Example {
        pattern: b"//a[.//a]//a",
        book: b"raaa))))",
        names: b"aaa",
        answer: Ok(()),
        rows: &[
            (1, 6, 1),
            (2, 5, 2),
            (2, 5, 2),
            (3, 4, 3),
            (2, 5, 2),
            (3, 4, 3),
        ],
    },
    // Regions before, inside and after the one that is useful.
    Example {
        pattern: b"//a//b",
        book: b"rb)ab)b))b))",
        names: b"ab",
        answer: Ok(()),
        rows: &[(3, 8, 1), NONE, (4, 5, 2), (6, 7, 2)],
    },
    // Three nodes, one below the other, and the middle one in a region that is of no use at the root.
    Example {
        pattern: b"//a//b//c",
        book: b"rbac))abc)c))))",
        names: b"abc",
        answer: Ok(()),
        rows: &[(6, 13, 2), NONE, (7, 12, 3), NONE, (8, 9, 4), (10, 11, 4)],
    },
    // The largest number of regions is at the last node.
    Example {
        pattern: b"//a//b",
        book: b"rab)b)b)b)))",
        names: b"ab",
        answer: Err((FewRows, 8)),
        rows: &[NONE, NONE, NONE, NONE, NONE, NONE, NONE],
    },
];

// What the rows have before a search begins, and a table before a page.
const OLD_ROW: Row = Row {
    start: 7,
    end: 8,
    level: 9,
};

const OLD_PLACE: Place = Place {
    starts: [7; POSITIONS],
};

fn row((start, end, level): Numbers) -> Row {
    Row { start, end, level }
}

// The rows have these numbers.
fn check_rows(rt: &impl Abort, rows: &[Row], expected: &[Numbers]) {
    assert_eq!(rt; rows.len(), expected.len());
    for (given, numbers) in rows.iter().zip(expected) {
        assert_eq!(rt; *given, row(*numbers));
    }
}

fn twig_of(text: &[u8]) -> Result<Twig, Fail> {
    let mut twig = Twig::new();
    twig.read(text)?;
    Ok(twig)
}

// The set of the members' lists.
fn set_of<'b>(rt: &impl Abort, members: &'b [Member]) -> Listed<'b> {
    Listed::new(members).expect(rt, "a lawful book")
}

// List i has these regions.
fn check_list<S: SkippingSet>(rt: &impl Abort, set: &mut S, i: usize, list: &[Numbers]) {
    for (start, end, level) in list {
        let r = Region {
            start: *start,
            end: *end,
            level: *level,
        };
        assert_eq!(rt; set.tell(i), Some(r));
        set.advance(i);
    }
    assert_eq!(rt; set.tell(i), None);
}

// By a search, and by a gather alone.
#[test]
fn examples(rt: HostRuntime) -> Result<(), Fail> {
    let heap = rt.alloc();
    for example in &EXAMPLES {
        let twig = twig_of(example.pattern)?;
        let members = book_of(heap, example.book, example.names)?;
        let fresh = set_of(&rt, members.as_slice());
        let answer = example.answer.map_err(|(refusal, place)| refusal.at(place));
        let mut set = fresh;
        let mut rows = vec![in heap; OLD_ROW; example.rows.len()]?;
        let mut search = Search::begin(&twig, rows.as_mut_slice());
        let given = search.gather(&mut set);
        search.close();
        assert_eq!(rt; given, answer);
        check_rows(&rt, rows.as_slice(), example.rows);
        set = fresh;
        rows.as_mut_slice().fill(OLD_ROW);
        assert_eq!(rt; gather(&mut set, &twig, rows.as_mut_slice()), answer);
        check_rows(&rt, rows.as_slice(), example.rows);
    }
    Ok(())
}

#[test]
fn second_gather(rt: HostRuntime) -> Result<(), Fail> {
    let heap = rt.alloc();
    let twig = twig_of(b"//a//a")?;
    let members = book_of(heap, b"raaa))))", b"aa")?;
    let fresh = set_of(&rt, members.as_slice());
    let mut rows = [OLD_ROW; 4];
    let mut search = Search::begin(&twig, &mut rows);
    let mut set = fresh;
    assert_eq!(rt; search.gather(&mut set), Ok(()));
    let mut set = fresh;
    assert_eq!(rt; search.gather(&mut set), Err(Gathered.at(0)));
    for i in 0..2 {
        check_list(&rt, &mut set, i, &[(1, 6, 1), (2, 5, 2), (3, 4, 3)]);
    }
    search.close();
    check_rows(&rt, &rows, &[(1, 6, 1), (2, 5, 2), (2, 5, 2), (3, 4, 3)]);
    Ok(())
}

#[test]
fn granted_after_a_refusal(rt: HostRuntime) -> Result<(), Fail> {
    let heap = rt.alloc();
    let twig = twig_of(b"//a//a")?;
    let large = book_of(heap, b"raaa))))", b"aa")?;
    let small = book_of(heap, b"raa)))", b"aa")?;
    let mut rows = [OLD_ROW; 3];
    let mut search = Search::begin(&twig, &mut rows);
    assert_eq!(rt;
        search.gather(&mut set_of(&rt, large.as_slice())),
        Err(FewRows.at(4))
    );
    assert_eq!(rt; search.gather(&mut set_of(&rt, small.as_slice())), Ok(()));
    search.close();
    check_rows(&rt, &rows, &[(1, 4, 1), (2, 3, 2), NONE]);
    Ok(())
}

#[test]
fn lists_past_the_last_node(rt: HostRuntime) -> Result<(), Fail> {
    let heap = rt.alloc();
    let twig = twig_of(b"//a//b")?;
    let members = book_of(heap, b"rab)b)))", b"abab")?;
    let mut set = set_of(&rt, members.as_slice());
    let mut rows = [OLD_ROW; 4];
    let mut search = Search::begin(&twig, &mut rows);
    assert_eq!(rt; search.gather(&mut set), Ok(()));
    search.close();
    check_rows(&rt, &rows, &[(1, 6, 1), NONE, (2, 3, 2), (4, 5, 2)]);
    check_list(&rt, &mut set, 0, &[]);
    check_list(&rt, &mut set, 1, &[]);
    check_list(&rt, &mut set, 2, &[(1, 6, 1)]);
    check_list(&rt, &mut set, 3, &[(2, 3, 2), (4, 5, 2)]);
    check_list(&rt, &mut set, 4, &[]);
    Ok(())
}

#[test]
fn rows_given_back(rt: HostRuntime) -> Result<(), Fail> {
    let heap = rt.alloc();
    let twig = twig_of(b"//a")?;
    let members = book_of(heap, b"ra))", b"a")?;
    let mut rows = [OLD_ROW; 2];
    Search::begin(&twig, &mut rows).close();
    check_rows(&rt, &rows, &[NONE, NONE]);
    rows = [OLD_ROW; 2];
    let mut search = Search::begin(&twig, &mut rows);
    assert_eq!(rt; search.gather(&mut set_of(&rt, members.as_slice())), Ok(()));
    search.close();
    check_rows(&rt, &rows, &[(1, 2, 1), NONE]);
    rows[1] = BLANK;
    Ok(())
}

// A pattern over the book `raaa))))`, and the starts in each place of its listing.
static LISTINGS: [(&'static [u8], &'static [(u32, u32)]); 4] = [
    (b"//a//a", &[(1, 2), (1, 3), (2, 3)]),
    (b"//a/a", &[(1, 2), (2, 3)]),
    (b"/a//a", &[]),
    (b"//a", &[(1, u32::MAX), (2, u32::MAX), (3, u32::MAX)]),
];

#[test]
fn listings(rt: HostRuntime) -> Result<(), Fail> {
    let heap = rt.alloc();
    let members = book_of(heap, b"raaa))))", b"aa")?;
    for (pattern, expected) in LISTINGS {
        let twig = twig_of(pattern)?;
        let mut rows = [OLD_ROW; 6];
        let mut table = [OLD_PLACE; 4];
        let mut search = Search::begin(&twig, &mut rows);
        assert_eq!(rt; search.gather(&mut set_of(&rt, members.as_slice())), Ok(()));
        let given = search.page(&mut table);
        assert_eq!(rt; search.page(&mut table), Err(ListedOut.at(0)));
        search.close();
        let answer = if expected.is_empty() {
            Err(ListedOut.at(0))
        } else {
            Ok(expected.len())
        };
        assert_eq!(rt; given, answer);
        for (place, (upper, lower)) in table.iter().zip(expected) {
            let mut starts = [u32::MAX; POSITIONS];
            starts[0] = *upper;
            starts[1] = *lower;
            assert_eq!(rt; *place, Place { starts });
        }
    }
    Ok(())
}

#[test]
fn unlawful_books(rt: HostRuntime) -> Result<(), Fail> {
    let heap = rt.alloc();
    let members = book_of(heap, b"raa)))", b"aa")?;
    set_of(&rt, members.as_slice());
    assert!(rt; Listed::new(&[]).is_none());
    for k in 0..members.len() {
        let mut wrong = members.clone()?;
        if let Some(member) = wrong.get_mut(k) {
            member.region.level = member.region.level.wrapping_add(1);
        }
        assert!(rt; Listed::new(wrong.as_slice()).is_none());
        let mut wrong = members.clone()?;
        if let Some(member) = wrong.get_mut(k) {
            member.region.end = member.region.start;
        }
        assert!(rt; Listed::new(wrong.as_slice()).is_none());
        // without the first, or with one of them twice
        let mut wrong = members.clone()?;
        if let Some(member) = members.get(k) {
            wrong.push(*member)?;
        }
        assert!(rt; Listed::new(wrong.as_slice()).is_none());
    }
    assert!(rt; Listed::new(members.get(1..).unwrap_or(&[])).is_none());
    Ok(())
}
