// Tests of the crate `pattern`: texts with what they are read as, and every small change of a text.
#![tactic(auto)]

#[cfg(test)]
mod tests {
    use markup::Refusal;
    use markup::Refusal::{Misfit, PatternNameTooLong, PatternTooLong, TooManySteps};
    use pattern::{LONGEST_SPELLING, Twig};
    use std::process::Abort;
    use std::test::Fail;

    // Texts, each with its standard spelling, or with its refusal and the place.
    static CASES: [(&'static [u8], Result<&'static [u8], (Refusal, usize)>); 50] = [
        // Leads, edges and branches.
        (b"/a", Ok(b"/a")),
        (b"//a", Ok(b"//a")),
        (b"//a/b//c", Ok(b"//a/b//c")),
        (b"//a[b]", Ok(b"//a/b")),
        (b"//a[.//b]", Ok(b"//a//b")),
        (b"//a[b][c]", Ok(b"//a[b]/c")),
        (b"//a[b][.//c]", Ok(b"//a[b]//c")),
        (b"//a[.//b]/c", Ok(b"//a[.//b]/c")),
        (b"//a[b/c]//d", Ok(b"//a[b/c]//d")),
        (b"//a/b[c][d]", Ok(b"//a/b[c]/d")),
        (b"/a[b[c]/d][.//e]", Ok(b"/a[b[c]/d]//e")),
        (b"//b[p][p]", Ok(b"//b[p]/p")),
        // Names.
        (b"//_a-1.", Ok(b"//_a-1.")),
        (b"//a.//b", Ok(b"//a.//b")),
        (
            b"//abcdefghijklmnopqrstuvwxyzABCDEF",
            Ok(b"//abcdefghijklmnopqrstuvwxyzABCDEF"),
        ),
        (
            b"//abcdefghijklmnopqrstuvwxyzABCDEFG",
            Err((PatternNameTooLong, 34)),
        ),
        (
            b"//a[b/abcdefghijklmnopqrstuvwxyz0123456]",
            Err((PatternNameTooLong, 38)),
        ),
        // Misfits.
        (b"", Err((Misfit, 0))),
        (b"a", Err((Misfit, 0))),
        (b"/", Err((Misfit, 1))),
        (b"//", Err((Misfit, 2))),
        (b"///a", Err((Misfit, 2))),
        (b"//1a", Err((Misfit, 2))),
        (b"//.a", Err((Misfit, 2))),
        (b"//a b", Err((Misfit, 3))),
        (b"//a/", Err((Misfit, 4))),
        (b"//a///b", Err((Misfit, 5))),
        (b"//a]", Err((Misfit, 3))),
        (b"//a[", Err((Misfit, 4))),
        (b"//a[]", Err((Misfit, 4))),
        (b"//a[[b]]", Err((Misfit, 4))),
        (b"//a[/b]", Err((Misfit, 4))),
        (b"//a[//b]", Err((Misfit, 4))),
        (b"//a[./b]", Err((Misfit, 6))),
        (b"//a[.b]", Err((Misfit, 5))),
        (b"//a[b", Err((Misfit, 5))),
        (b"//a[b]c", Err((Misfit, 6))),
        (b"//a[b]]", Err((Misfit, 6))),
        // Sixteen names, and a seventeenth.
        (
            b"//a/a/a/a/a/a/a/a/a/a/a/a/a/a/a/a",
            Ok(b"//a/a/a/a/a/a/a/a/a/a/a/a/a/a/a/a"),
        ),
        (
            b"//a/a/a/a/a/a/a/a/a/a/a/a/a/a/a/a/a",
            Err((TooManySteps, 34)),
        ),
        (b"//a/a/a/a/a/a/a/a/a/a/a/a/a/a/a/a/1", Err((Misfit, 34))),
        (b"//a/a/a/a/a/a/a/a/a/a/a/a/a/a/a/a/", Err((Misfit, 34))),
        // Eight open brackets, and a ninth. A spelling opens seven at most.
        (b"//a[a[a[a[a[a[a[a[a]]]]]]]]", Ok(b"//a/a/a/a/a/a/a/a/a")),
        (b"//a[a[a[a[a[a[a[a[a[a]]]]]]]]]", Err((TooManySteps, 19))),
        (b"//a[a[a[a[a[a[a[a[[", Err((Misfit, 18))),
        (
            b"//a[a[a[a[a[a[a[a[a]]]]]]]][b][c]",
            Ok(b"//a[a/a/a/a/a/a/a/a][b]/c"),
        ),
        (
            b"//a[a[a[a[a[a[a[a/a]/a]/a]/a]/a]/a]/a]/a",
            Ok(b"//a[a[a[a[a[a[a[a/a]/a]/a]/a]/a]/a]/a]/a"),
        ),
        // The leftmost place decides.
        (b"//a//b[[c]]d", Err((Misfit, 7))),
        (
            b"//abcdefghijklmnopqrstuvwxyzABCDEFG[",
            Err((PatternNameTooLong, 34)),
        ),
        (b"//a[b]\n", Err((Misfit, 6))),
    ];

    // The twig has this spelling.
    fn is_spelled(rt: &impl Abort, twig: &Twig, expected: &[u8]) -> Result<(), Fail> {
        let mut out = [0; LONGEST_SPELLING];
        let len = twig.spell(&mut out)?;
        assert!(rt; len <= LONGEST_SPELLING);
        assert_eq!(rt; &out[..len], expected);
        Ok(())
    }

    // The text is refused so, and the twig stays as it was.
    fn is_refused(
        rt: &impl Abort,
        text: &[u8],
        refusal: Refusal,
        place: usize,
    ) -> Result<(), Fail> {
        let mut twig = Twig::new();
        assert_eq!(rt; twig.read(text), Err(refusal.at(place)));
        is_spelled(rt, &twig, b"//a")
    }

    #[test]
    fn texts(rt: HostRuntime) -> Result<(), Fail> {
        for (text, expected) in CASES {
            match expected {
                Ok(spelling) => {
                    let mut twig = Twig::new();
                    twig.read(text)?;
                    is_spelled(&rt, &twig, spelling)?;
                }
                Err((refusal, place)) => is_refused(&rt, text, refusal, place)?,
            }
        }
        is_refused(&rt, &[b'/'; 1024], Misfit, 2)?;
        is_refused(&rt, &[b'/'; 1025], PatternTooLong, 1024)
    }

    #[test]
    fn numbers(rt: HostRuntime) {
        assert_eq!(rt; PatternTooLong.number(), 14);
        assert_eq!(rt; Misfit.number(), 15);
        assert_eq!(rt; TooManySteps.number(), 16);
        assert_eq!(rt; PatternNameTooLong.number(), 17);
    }

    // A text is answered; where it is granted, its spelling is read back as the same twig.
    fn reads_back(rt: &impl Abort, text: &[u8]) -> Result<(), Fail> {
        let mut twig = Twig::new();
        if twig.read(text).is_err() {
            return Ok(());
        }
        let mut out = [0; LONGEST_SPELLING];
        let len = twig.spell(&mut out)?;
        assert!(rt; len <= LONGEST_SPELLING);
        let mut again = Twig::new();
        again.read(&out[..len])?;
        is_spelled(rt, &again, &out[..len])
    }

    const SAMPLE: [u8; 22] = *b"/a[.//b[c]]/d-1[e]//f.";

    #[test]
    fn changes(rt: HostRuntime) -> Result<(), Fail> {
        for end in 0..=SAMPLE.len() {
            reads_back(&rt, &SAMPLE[..end])?;
        }
        // By numbers: each place of a copy is written in turn.
        for i in 0..SAMPLE.len() {
            for b in 0..=255 {
                let mut text = SAMPLE;
                text[i] = b;
                reads_back(&rt, &text)?;
            }
        }
        Ok(())
    }
}
