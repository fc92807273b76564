// Listings of a book made by hand, run: what each page has, whatever its size, and that after the last place there is none.
#![tactic(auto)]

#[cfg(test)]
mod tests {
    use listing::{Choice, Place, page};
    use pattern::Twig;
    use rows::{BLANK, Row, Shares};
    use std::process::Abort;
    use std::test::Fail;
    use stream::POSITIONS;

    // Two chapters: three paragraphs in the first, of which the second stands inside the first, and one in the other.
    const C1: Row = Row {
        start: 10,
        end: 40,
        level: 1,
    };

    const P1: Row = Row {
        start: 12,
        end: 20,
        level: 2,
    };

    const P2: Row = Row {
        start: 14,
        end: 18,
        level: 3,
    };

    const P3: Row = Row {
        start: 22,
        end: 30,
        level: 2,
    };

    const C2: Row = Row {
        start: 50,
        end: 80,
        level: 1,
    };

    const P4: Row = Row {
        start: 52,
        end: 60,
        level: 2,
    };

    const UNWRITTEN: Place = Place {
        starts: [7; POSITIONS],
    };

    // Past the last node of a twig.
    const NONE: u32 = u32::MAX;

    // The place with these starts.
    fn place(starts: &[u32; 3]) -> Place {
        let mut all = [NONE; POSITIONS];
        all[..3].copy_from_slice(starts);
        Place { starts: all }
    }

    // The twig of this text has a listing with these places, on pages of `size`.
    fn is_listed(
        rt: &impl Abort,
        text: &[u8],
        rows: &[Row],
        expected: &[[u32; 3]],
        size: usize,
    ) -> Result<(), Fail> {
        assert!(rt; size <= 8);
        let mut twig = Twig::new();
        twig.read(text)?;
        let shares = Shares::new(&twig, rows);
        let mut latest: Option<Choice> = None;
        let mut listed = 0;
        for _ in 0..=expected.len() {
            let mut table = [UNWRITTEN; 8];
            let paged = page(&shares, latest, &mut table[..size]);
            assert!(rt; paged.count <= expected.len() && listed <= expected.len() - paged.count);
            for k in 0..paged.count {
                assert_eq!(rt; table.get(k).copied(), Some(place(&expected[listed + k])));
            }
            for k in paged.count..8 {
                assert_eq!(rt; table[k], UNWRITTEN);
            }
            listed += paged.count;
            latest = paged.latest;
        }
        assert_eq!(rt; listed, expected.len());
        Ok(())
    }

    // The same on pages of every size.
    fn is_listed_on_all_pages(
        rt: &impl Abort,
        text: &[u8],
        rows: &[Row],
        expected: &[[u32; 3]],
    ) -> Result<(), Fail> {
        for size in 1..=8 {
            is_listed(rt, text, rows, expected, size)?;
        }
        Ok(())
    }

    #[test]
    fn one_node(rt: HostRuntime) -> Result<(), Fail> {
        let starts = [[10, NONE, NONE], [50, NONE, NONE]];
        is_listed_on_all_pages(&rt, b"//chapter", &[C1, C2, BLANK], &starts)?;
        is_listed_on_all_pages(&rt, b"//chapter", &[BLANK; 4], &[])?;
        is_listed_on_all_pages(&rt, b"//chapter", &[], &[])
    }

    #[test]
    fn edges(rt: HostRuntime) -> Result<(), Fail> {
        let rows = [C1, C2, BLANK, BLANK, P1, P2, P3, P4];
        let below = [
            [10, 12, NONE],
            [10, 14, NONE],
            [10, 22, NONE],
            [50, 52, NONE],
        ];
        is_listed_on_all_pages(&rt, b"//chapter//p", &rows, &below)?;
        let children = [[10, 12, NONE], [10, 22, NONE], [50, 52, NONE]];
        is_listed_on_all_pages(&rt, b"//chapter/p", &rows, &children)
    }

    // The first chapter has six of the seven: two children, each with three below the chapter.
    #[test]
    fn branches(rt: HostRuntime) -> Result<(), Fail> {
        let rows = [
            C1, C2, BLANK, BLANK, P1, P2, P3, P4, P1, P2, P3, P4, BLANK, BLANK,
        ];
        let starts = [
            [10, 12, 12],
            [10, 12, 14],
            [10, 12, 22],
            [10, 22, 12],
            [10, 22, 14],
            [10, 22, 22],
            [50, 52, 52],
        ];
        is_listed_on_all_pages(&rt, b"//chapter[p]//p", &rows, &starts)
    }
}
