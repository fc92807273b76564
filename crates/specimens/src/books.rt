// Book texts and what the outline program prints for them.
use report::outline;
use std::alloc::{AllocError, Global};
use std::process::Abort;
use std::test::Fail;

// `rt` and `heap` go apart: one handle for both would be bound by two traits.
fn check_outline(rt: &impl Abort, heap: Global, text: &str, lines: &str) -> Result<(), Fail> {
    let printed = outline::outline(heap, text.as_bytes())?;
    assert_eq!(rt; printed.as_slice(), lines.as_bytes(), "of {text:.40}");
    Ok(())
}

// Texts and their lines.
fn check_all(rt: &impl Abort, heap: Global, table: &[(&str, &str)]) -> Result<(), Fail> {
    for &(text, lines) in table {
        check_outline(rt, heap, text, lines)?;
    }
    Ok(())
}

#[test]
fn granted(rt: HostRuntime) -> Result<(), Fail> {
    let table = [
        (
            "<b><p><n/></p><p></p></b>",
            "0 21 0 b\n3 10 1 p\n6 8 2 n\n14 17 1 p\nend\n",
        ),
        ("<a/>", "0 2 0 a\nend\n"),
        ("<a></a>", "0 3 0 a\nend\n"),
        (" \t\r\n<a/> \t\r\n", "4 6 0 a\nend\n"),
        // every byte but `<` is text inside the top element
        ("<a>x > y & z / \x00 \x0b</a>", "0 18 0 a\nend\n"),
        ("<_><A-1.b/></_>", "0 11 0 _\n3 9 1 A-1.b\nend\n"),
        // names compare by bytes, and a name of 32 bytes is lawful
        ("<a><A/></a>", "0 7 0 a\n3 5 1 A\nend\n"),
        (
            "<abcdefghijklmnopqrstuvwxyzABCDEF/>",
            "0 33 0 abcdefghijklmnopqrstuvwxyzABCDEF\nend\n",
        ),
    ];
    check_all(&rt, rt.alloc(), &table)
}

#[test]
fn refused_within_a_tag(rt: HostRuntime) -> Result<(), Fail> {
    let table = [
        // the text ends in a tag
        ("<", "refused 2 at 1\n"),
        ("</", "refused 2 at 2\n"),
        ("<a", "refused 2 at 2\n"),
        ("<a/", "refused 2 at 3\n"),
        ("</a", "refused 2 at 3\n"),
        // the first byte that fits no tag
        ("<1", "refused 2 at 1\n"),
        ("<>", "refused 2 at 1\n"),
        ("</>", "refused 2 at 2\n"),
        ("<a b>", "refused 2 at 2\n"),
        ("<a >", "refused 2 at 2\n"),
        ("<a//>", "refused 2 at 3\n"),
        ("<a/ >", "refused 2 at 3\n"),
        ("</a/>", "refused 2 at 3\n"),
        ("<a<", "refused 2 at 2\n"),
        ("<!-- -->", "refused 2 at 1\n"),
        ("<?xml?>", "refused 2 at 1\n"),
        ("<.a/>", "refused 2 at 1\n"),
        // the 33rd byte of a name, whatever follows, and a byte behind 32
        ("<abcdefghijklmnopqrstuvwxyzABCDEFG/>", "refused 8 at 33\n"),
        ("<abcdefghijklmnopqrstuvwxyzABCDEFG", "refused 8 at 33\n"),
        ("</abcdefghijklmnopqrstuvwxyzABCDEFG>", "refused 8 at 34\n"),
        ("<abcdefghijklmnopqrstuvwxyzABCDEF!", "refused 2 at 33\n"),
        // a tag's bytes decide before what it does in the text
        ("<a/><b", "refused 2 at 6\n"),
        ("<a></b", "refused 2 at 6\n"),
    ];
    check_all(&rt, rt.alloc(), &table)
}

#[test]
fn refused_between_tags(rt: HostRuntime) -> Result<(), Fail> {
    let table = [
        // text outside the top element
        ("x<a/>", "refused 2 at 0\n"),
        (" x<a/>", "refused 2 at 1\n"),
        ("<a/>x", "refused 2 at 4\n"),
        ("<a/> x", "refused 2 at 5\n"),
        ("\x0b<a/>", "refused 2 at 0\n"),
        ("\x0c<a/>", "refused 2 at 0\n"),
        ("\x00<a/>", "refused 2 at 0\n"),
        ("\u{feff}<a/>", "refused 2 at 0\n"),
        // end tags
        ("<a><b></a></b>", "refused 3 at 6\n"),
        ("</a>", "refused 3 at 0\n"),
        ("<a/></a>", "refused 3 at 4\n"),
        ("<a></A>", "refused 3 at 3\n"),
        // the end of the text
        ("<a><b></b>", "refused 4 at 0\n"),
        ("<a><b>text", "refused 4 at 3\n"),
        ("", "refused 5 at 0\n"),
        (" \n", "refused 5 at 2\n"),
        // a second top element
        ("<a/><a/>", "refused 5 at 4\n"),
        ("<a></a><b>", "refused 5 at 7\n"),
    ];
    check_all(&rt, rt.alloc(), &table)
}

#[test]
fn levels(rt: HostRuntime) -> Result<(), Fail> {
    let heap = rt.alloc();
    let starts = "<a>".repeat(heap, 64)?;
    let ends = "</a>".repeat(heap, 64)?;
    let text = format!(in heap; "{starts}{ends}")?;
    let printed = outline::outline(heap, text.as_bytes())?;
    assert!(rt; printed.as_slice().starts_with(b"0 444 0 a\n3 440 1 a\n"));
    assert!(rt; printed.as_slice().ends_with(b"\n189 192 63 a\nend\n"));
    let deeper = format!(in heap; "{starts}<a>")?;
    check_outline(&rt, heap, deeper.as_str(), "refused 6 at 192\n")?;
    let empty = format!(in heap; "{starts}<b/>")?;
    check_outline(&rt, heap, empty.as_str(), "refused 6 at 192\n")?;
    let cut = format!(in heap; "{starts}<a")?;
    check_outline(&rt, heap, cut.as_str(), "refused 2 at 194\n")
}

// A top element with `count` empty ones of the name `b`.
fn flat(heap: Global, count: usize) -> Result<String, AllocError> {
    let elements = "<b/>".repeat(heap, count)?;
    format!(in heap; "<a>{elements}</a>")
}

#[test]
fn elements(rt: HostRuntime) -> Result<(), Fail> {
    let heap = rt.alloc();
    let most = outline::outline(heap, flat(heap, 65_534)?.as_bytes())?;
    assert!(rt;
        most.as_slice()
            .starts_with(b"0 262139 0 a\n3 5 1 b\n7 9 1 b\n")
    );
    assert!(rt; most.as_slice().ends_with(b"\n262135 262137 1 b\nend\n"));
    check_outline(
        &rt,
        heap,
        flat(heap, 65_535)?.as_str(),
        "refused 7 at 262139\n",
    )
}

// A top element with `count` empty ones, each of its own name of three letters.
fn many_names(heap: Global, count: u16) -> Result<String, AllocError> {
    let mut text = String::from_str(heap, "<a>")?;
    for i in 0..count {
        let first = char::from(b'A' + (i / 26 % 26) as u8);
        let second = char::from(b'A' + (i % 26) as u8);
        let third = char::from(b'a' + (i / 676 % 26) as u8);
        write!(text, "<{first}{second}{third}/>")?;
    }
    text.push_str("</a>")?;
    Ok(text)
}

#[test]
fn names(rt: HostRuntime) -> Result<(), Fail> {
    let heap = rt.alloc();
    let most = outline::outline(heap, many_names(heap, 1023)?.as_bytes())?;
    assert!(rt;
        most.as_slice()
            .starts_with(b"0 6141 0 a\n3 7 1 AAa\n9 13 1 ABa\n")
    );
    assert!(rt; most.as_slice().ends_with(b"\n6135 6139 1 NIb\nend\n"));
    check_outline(
        &rt,
        heap,
        many_names(heap, 1024)?.as_str(),
        "refused 7 at 6141\n",
    )
}

#[test]
fn lengths(rt: HostRuntime) -> Result<(), Fail> {
    let heap = rt.alloc();
    let content = "x".repeat(heap, 16_777_209)?;
    let mut text = format!(in heap; "<a>{content}</a>")?;
    check_outline(&rt, heap, text.as_str(), "0 16777212 0 a\nend\n")?;
    text.push(' ')?;
    check_outline(&rt, heap, text.as_str(), "refused 1 at 16777216\n")?;
    let angles = "<".repeat(heap, 16_777_216)?;
    check_outline(&rt, heap, angles.as_str(), "refused 2 at 1\n")
}

#[test]
fn every_front_is_refused(rt: HostRuntime) -> Result<(), Fail> {
    let heap = rt.alloc();
    let sample = b"<b><p><n/> text </p>\n<p></p></b>";
    // By number, which is the length of the front.
    for i in 0..sample.len() {
        let printed = outline::outline(heap, &sample[..i])?;
        assert!(rt; printed.as_slice().starts_with(b"refused "));
    }
    Ok(())
}

#[test]
fn every_byte_alone_is_refused(rt: HostRuntime) -> Result<(), Fail> {
    let heap = rt.alloc();
    for b in 0..=255u8 {
        let lines = match b {
            b' ' | b'\t' | b'\r' | b'\n' => "refused 5 at 1\n",
            b'<' => "refused 2 at 1\n",
            _ => "refused 2 at 0\n",
        };
        let printed = outline::outline(heap, &[b])?;
        assert_eq!(rt; printed.as_slice(), lines.as_bytes());
    }
    Ok(())
}
