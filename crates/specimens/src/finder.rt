// Inputs and what the finder prints for them.
use rows::BLANK;
use std::alloc::{AllocError, Global};
use std::process::Abort;
use std::test::Fail;

// An input, how many bytes the sheet has room for, how many rows there are, and the lines.
#[derive(Drop)]
struct Case {
    input: &'static [u8],
    room: usize,
    rows: usize,
    lines: &'static [u8],
}

const ROOM: usize = 1 << 17;

const ROWS: usize = 4096;

// An input with room enough for small books.
const fn with_room(input: &'static [u8], lines: &'static [u8]) -> Case {
    Case {
        input,
        room: 200,
        rows: 16,
        lines,
    }
}

// What the finder prints.
fn printed(heap: Global, input: &[u8], room: usize, rows: usize) -> Result<Vec<u8>, Fail> {
    let mut sheet = vec![in heap; 0u8; room]?;
    let mut table = vec![in heap; BLANK; rows]?;
    let mut out = Vec::new(heap);
    finding::find(
        heap,
        input,
        sheet.as_mut_slice(),
        table.as_mut_slice(),
        &mut out,
    )?;
    Ok(out)
}

fn check_lines(rt: &impl Abort, heap: Global, input: &str, lines: &str) -> Result<(), Fail> {
    let out = printed(heap, input.as_bytes(), ROOM, ROWS)?;
    assert_eq!(rt; out.as_slice(), lines.as_bytes(), "of {input:.40}");
    Ok(())
}

fn check_cases(rt: &impl Abort, heap: Global, cases: &[Case]) -> Result<(), Fail> {
    for (i, case) in cases.iter().enumerate() {
        let out = printed(heap, case.input, case.room, case.rows)?;
        assert_eq!(rt; out.as_slice(), case.lines, "case {i}");
    }
    Ok(())
}

#[test]
fn listed(rt: HostRuntime) -> Result<(), Fail> {
    let cases = [
        with_room(b"//b//p\n<b><p><n/></p><p></p></b>", b"0 3\n0 14\nend\n"),
        with_room(
            b"//b[p][p]\n<b><p><n/></p><p></p></b>",
            b"0 3 3\n0 3 14\n0 14 3\n0 14 14\nend\n",
        ),
        with_room(b"//b[p][n]\n<b><p><n/></p><p></p></b>", b"end\n"),
        with_room(
            b"//b[p][.//n]\n<b><p><n/></p><p></p></b>",
            b"0 3 6\n0 14 6\nend\n",
        ),
        with_room(b"//p/n\n<b><p><n/></p><p></p></b>", b"3 6\nend\n"),
        with_room(b"/b/p\n<b><p><n/></p><p></p></b>", b"0 3\n0 14\nend\n"),
        with_room(b"/p\n<b><p><n/></p><p></p></b>", b"end\n"),
        // no element has the name
        with_room(b"//q\n<b><p><n/></p><p></p></b>", b"end\n"),
        // an element is not below itself
        with_room(b"//a//a\n<a><a><a/></a></a>", b"0 3\n0 6\n3 6\nend\n"),
        // only the first LF ends the pattern
        with_room(b"//a\n\n<a/>\n", b"1\nend\n"),
    ];
    check_cases(&rt, rt.alloc(), &cases)
}

#[test]
fn refused_patterns(rt: HostRuntime) -> Result<(), Fail> {
    let cases = [
        with_room(b"//a[//b]\n<a/>", b"refused 15 at 4\n"),
        // an empty pattern, and an empty input
        with_room(b"\n<a/>", b"refused 15 at 0\n"),
        with_room(b"", b"refused 15 at 0\n"),
        // a CR is part of the pattern
        with_room(b"//a\r\n<a/>", b"refused 15 at 3\n"),
        // without a LF all is the pattern
        with_room(b"//a<a/>", b"refused 15 at 3\n"),
        // a pattern comes before a text
        with_room(b"//\n</", b"refused 15 at 2\n"),
        with_room(
            b"//a/a/a/a/a/a/a/a/a/a/a/a/a/a/a/a/a\n<a/>",
            b"refused 16 at 34\n",
        ),
        with_room(
            b"//a[a[a[a[a[a[a[a[a[a]]]]]]]]]\n<a/>",
            b"refused 16 at 19\n",
        ),
        with_room(
            b"//abcdefghijklmnopqrstuvwxyzABCDEFG\n<a/>",
            b"refused 17 at 34\n",
        ),
    ];
    check_cases(&rt, rt.alloc(), &cases)
}

#[test]
fn refused_texts(rt: HostRuntime) -> Result<(), Fail> {
    let cases = [
        with_room(b"//a\n</", b"refused 2 at 2\n"),
        with_room(b"//a\n<a><b></a></b>", b"refused 3 at 6\n"),
        with_room(b"//a\n<a><b></b>", b"refused 4 at 0\n"),
        // an empty text, with a LF and without one
        with_room(b"//a\n", b"refused 5 at 0\n"),
        with_room(b"//a", b"refused 5 at 0\n"),
        with_room(b"//a\n<a/><a/>", b"refused 5 at 4\n"),
        with_room(
            b"//a\n<abcdefghijklmnopqrstuvwxyzABCDEFG/>",
            b"refused 8 at 33\n",
        ),
        // a text comes before the sheet and the rows
        Case {
            input: b"//a\n<a/><a/>",
            room: 0,
            rows: 0,
            lines: b"refused 5 at 4\n",
        },
    ];
    check_cases(&rt, rt.alloc(), &cases)
}

// An input over the sample book.
const fn sample(room: usize, rows: usize, lines: &'static [u8]) -> Case {
    Case {
        input: b"//b//p\n<b><p><n/></p><p></p></b>",
        room,
        rows,
        lines,
    }
}

#[test]
fn sheets_and_rows(rt: HostRuntime) -> Result<(), Fail> {
    let cases = [
        sample(135, 4, b"0 3\n0 14\nend\n"),
        sample(136, 5, b"0 3\n0 14\nend\n"),
        sample(135, 3, b"refused 19 at 4\n"),
        sample(135, 0, b"refused 19 at 4\n"),
        // the sheet comes before the rows
        sample(134, 3, b"refused 9 at 135\n"),
        sample(0, 4, b"refused 9 at 135\n"),
        // rows for useful elements that are in no embedding
        Case {
            input: b"//b[p][n]\n<b><p><n/></p><p></p></b>",
            room: 135,
            rows: 5,
            lines: b"refused 19 at 6\n",
        },
        // no useful element, and no rows
        Case {
            input: b"//q\n<b><p><n/></p><p></p></b>",
            room: 135,
            rows: 0,
            lines: b"end\n",
        },
    ];
    check_cases(&rt, rt.alloc(), &cases)
}

#[test]
fn lengths(rt: HostRuntime) -> Result<(), Fail> {
    let heap = rt.alloc();
    let content = "x".repeat(heap, 65_525)?;
    let mut input = format!(in heap; "//a\n<a>{content}</a>")?;
    assert!(rt; input.len() == 65_536);
    check_lines(&rt, heap, input.as_str(), "0\nend\n")?;
    input.push(' ')?;
    check_lines(&rt, heap, input.as_str(), "refused 24 at 65536\n")?;
    // the length of the input comes before its pattern, and that of the pattern before its bytes
    let stray = "x".repeat(heap, 65_537)?;
    check_lines(&rt, heap, stray.as_str(), "refused 24 at 65536\n")?;
    check_lines(&rt, heap, &stray.as_str()[1..], "refused 14 at 1024\n")?;
    check_lines(&rt, heap, &stray.as_str()[..1024], "refused 15 at 0\n")
}

#[test]
fn levels(rt: HostRuntime) -> Result<(), Fail> {
    let heap = rt.alloc();
    let starts = "<a>".repeat(heap, 64)?;
    let ends = "</a>".repeat(heap, 64)?;
    let mut lines = String::new(heap);
    for level in 0..64u16 {
        write!(lines, "{}\n", 3 * u32::from(level))?;
    }
    lines.push_str("end\n")?;
    let input = format!(in heap; "//a\n{starts}{ends}")?;
    check_lines(&rt, heap, input.as_str(), lines.as_str())?;
    let top = format!(in heap; "/a\n{starts}{ends}")?;
    check_lines(&rt, heap, top.as_str(), "0\nend\n")?;
    let deeper = format!(in heap; "//a\n{starts}<a></a>{ends}")?;
    check_lines(&rt, heap, deeper.as_str(), "refused 6 at 192\n")
}

// A top element with `count` empty ones of the name `p`.
fn flat(heap: Global, pattern: &str, count: u16) -> Result<String, AllocError> {
    let elements = "<p/>".repeat(heap, usize::from(count))?;
    format!(in heap; "{pattern}\n<b>{elements}</b>")
}

// The start of empty element k of these.
fn start_of(k: u16) -> u32 {
    3 + 4 * u32::from(k)
}

// A page has 64 places.
#[test]
fn pages(rt: HostRuntime) -> Result<(), Fail> {
    let heap = rt.alloc();
    for count in [63u16, 64, 65, 128, 300] {
        let mut lines = String::new(heap);
        for k in 0..count {
            write!(lines, "0 {}\n", start_of(k))?;
        }
        lines.push_str("end\n")?;
        check_lines(
            &rt,
            heap,
            flat(heap, "//b//p", count)?.as_str(),
            lines.as_str(),
        )?;
    }
    Ok(())
}

#[test]
fn pages_of_pairs(rt: HostRuntime) -> Result<(), Fail> {
    let heap = rt.alloc();
    let mut lines = String::new(heap);
    for j in 0..20u16 {
        for k in 0..20u16 {
            write!(lines, "0 {} {}\n", start_of(j), start_of(k))?;
        }
    }
    lines.push_str("end\n")?;
    check_lines(
        &rt,
        heap,
        flat(heap, "//b[p][p]", 20)?.as_str(),
        lines.as_str(),
    )
}
