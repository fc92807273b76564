// Runs the finder over a table of inputs: prints each one's name, and then what the finder prints for it.
#![tactic(auto)]

use finding::find;
use rows::BLANK;
use std::io::Write;

// The bytes of the sheet, and the rows of the search, as the finder has them.
const SHEET: usize = 65_536;

const ROWS: usize = 4_096;

fn main(rt: HostRuntime) -> anyhow::Result<()> {
    let inputs = [
        ("descendants", "//b//p\n<b><p><n/></p><p></p></b>"),
        ("children", "//b/p\n<b><p><n/></p><p></p></b>"),
        ("two branches", "//b[p][p]\n<b><p><n/></p><p></p></b>"),
        ("no embedding", "//b[p][n]\n<b><p><n/></p><p></p></b>"),
        (
            "a name that does not occur",
            "//x\n<b><p><n/></p><p></p></b>",
        ),
        ("top", "/b\n<b><b/></b>"),
        ("any", "//b\n<b><b/></b>"),
        ("nested", "//a//a\n<a><a><a/></a></a>"),
        (
            "a branch below a branch",
            "//c[p[n]]/q\n<c><p/><p><n/></p><q/></c>",
        ),
        (
            "text and blanks",
            "//p/n\n <b>one<p>two <n>three</n></p></b>\r\n",
        ),
        ("no LF", "//b//p"),
        ("nothing", ""),
        ("LF first", "\n<a/>"),
        ("CR before the LF", "//a\r\n<a/>"),
        ("pattern wrong", "//a[//b]\n<a/>"),
        ("pattern before text", "//a]\n<a>"),
        ("wrong end tag", "//a\n<a><b></a></b>"),
        ("unclosed", "//a\n<a><b></b>"),
        ("no top element", "//a\n"),
        ("second top element", "//a\n<a/><a/>"),
        ("an ampersand is text", "//a\n<a>&</a>"),
        ("an attribute", "//a\n<a b>"),
    ];
    let mut out = rt.stdout();
    for (name, input) in inputs {
        out.write_all(name.as_bytes())?;
        out.write_all(b":\n")?;
        let mut sheet = [0; SHEET];
        let mut rows = [BLANK; ROWS];
        find(
            rt.alloc(),
            input.as_bytes(),
            &mut sheet,
            &mut rows,
            &mut out,
        )?;
    }
    Ok(())
}
