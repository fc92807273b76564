// The number of calls that a gather makes on a set.
use crate::books::{Random, book_of, random_book};
use crate::brute::list;
use pattern::Twig;
use search::Search;
use std::alloc::{AllocError, Global};
use std::process::Abort;
use std::test::Fail;
use stream::POSITIONS;
use test_sets::{Counted, Listed, Member};

// The number of calls of a gather of this pattern over these members. It asks once for each node; after that it makes two calls for each
// region that it takes away, or fewer.
fn calls(rt: &impl Abort, heap: Global, pattern: &[u8], members: &[Member]) -> Result<usize, Fail> {
    let mut twig = Twig::new();
    twig.read(pattern)?;
    let mut most = twig.len();
    for i in 0..twig.len() {
        let regions = list(heap, members, i)?.len();
        most = most.wrapping_add(regions.wrapping_mul(2));
    }
    let mut set = Counted::new(Listed::new(members).expect(rt, "a lawful book"));
    let mut rows = [];
    let mut search = Search::begin(&twig, &mut rows);
    // With no rows it is refused where a region is useful. The calls are the same.
    let _answer = search.gather(&mut set);
    search.close();
    assert!(rt; set.calls <= most);
    Ok(set.calls)
}

// Patterns of several shapes.
static PATTERNS: [&'static [u8]; 8] = [
    b"//a",
    b"/a//b",
    b"//a/b",
    b"//a[b][.//c]//d",
    b"//a[b[c][d]][e[f]]/g",
    b"//a//a//a//a//a//a//a//a//a//a//a//a//a//a//a//a",
    b"//a[b][c][d][e][f][g][h][i][j][k][l][m][n][o][p]",
    b"//a[b[c/d]/e]//f[g][h//i]//j[k][l[m]]//n[o]/p",
];

#[test]
fn random_books(rt: HostRuntime) -> Result<(), Fail> {
    let heap = rt.alloc();
    let mut random = Random::new(2);
    for pattern in PATTERNS {
        for k in 0..24 {
            let members = random_book(heap, &mut random, 10 * k + 1, k % 4 + 1, 10)?;
            calls(&rt, heap, pattern, members.as_slice())?;
        }
    }
    Ok(())
}

#[test]
fn deep_nesting(rt: HostRuntime) -> Result<(), Fail> {
    let heap = rt.alloc();
    let members = book_of(heap, &[b'a'; 64], &[b'a'; POSITIONS])?;
    for pattern in PATTERNS {
        calls(&rt, heap, pattern, members.as_slice())?;
    }
    // With one node each region is taken by itself, so there are no fewer calls.
    assert_eq!(rt; calls(&rt, heap, b"//a", members.as_slice())?, 129);
    Ok(())
}

// The text of a book with one region around a thousand others. All but number `odd` of these have the name b, and that one a.
fn flat(heap: Global, odd: usize) -> Result<Vec<u8>, AllocError> {
    let mut text = Vec::new(heap);
    text.push(b'r')?;
    for k in 0..1000 {
        text.push(if k == odd { b'a' } else { b'b' })?;
        text.push(b')')?;
    }
    Ok(text)
}

#[test]
fn long_flat_books(rt: HostRuntime) -> Result<(), Fail> {
    let heap = rt.alloc();
    let text = flat(heap, 500)?;
    let members = book_of(heap, text.as_slice(), &[b'b'; POSITIONS])?;
    for pattern in PATTERNS {
        calls(&rt, heap, pattern, members.as_slice())?;
    }
    Ok(())
}

#[test]
fn most_is_skipped(rt: HostRuntime) -> Result<(), Fail> {
    let heap = rt.alloc();
    let text = flat(heap, 990)?;
    // One region of the upper list, near the end; none; and none of the lower list.
    for names in [b"ab", b"cb", b"bc"] {
        let members = book_of(heap, text.as_slice(), names)?;
        assert!(rt; calls(&rt, heap, b"//a//b", members.as_slice())? < 10);
    }
    Ok(())
}
