// Places and the lines that stand for them.
use listing::Place;
use report::line;
use std::test::Fail;

// A place with these first starts.
pub(crate) fn place(first: &[u32]) -> Place {
    let mut starts = [u32::MAX; 16];
    for (start, &n) in starts.iter_mut().zip(first) {
        *start = n;
    }
    Place { starts }
}

#[test]
fn a_place(rt: HostRuntime) -> Result<(), Fail> {
    let heap = rt.alloc();
    let place = place(&[0, 7, 16777215]);
    let table = [
        (0, "\n"),
        (1, "0\n"),
        (2, "0 7\n"),
        (3, "0 7 16777215\n"),
        (4, "0 7 16777215 4294967295\n"),
    ];
    for (nodes, text) in table {
        let line = line::place_line(heap, nodes, &place)?;
        assert_eq!(rt; line.as_slice(), text.as_bytes(), "of {nodes} nodes");
    }
    Ok(())
}

#[test]
fn a_page(rt: HostRuntime) -> Result<(), Fail> {
    let heap = rt.alloc();
    let table = [place(&[0, 7]), place(&[0, 12]), place(&[3, 9])];
    let texts = [
        (0, ""),
        (2, "0 7\n0 12\n"),
        (3, "0 7\n0 12\n3 9\n"),
        (4, "0 7\n0 12\n3 9\n"),
    ];
    for (count, text) in texts {
        let lines = line::page_lines(heap, 2, count, &table)?;
        assert_eq!(rt; lines.as_slice(), text.as_bytes(), "of {count} places");
    }
    Ok(())
}
