// Comparisons of what a search and a listing give with what a brute force finds.
use crate::books::{Random, random_book};
use crate::brute::{self, Found};
use crate::plans::{NUMBERS, Plan};
use listing::Place;
use markup::{Fault, Refusal};
use pattern::Twig;
use rows::{BLANK, Row};
use search::Search;
use std::alloc::{AllocError, Global};
use std::process::Abort;
use std::test::Fail;
use stream::{POSITIONS, Region, StreamSet};
use test_sets::{Listed, Member};

// What the rows have before a search begins, and a table before a page.
const OLD_ROW: Row = Row {
    start: 7,
    end: 8,
    level: 9,
};

const OLD_PLACE: Place = Place {
    starts: [7; POSITIONS],
};

// A twig, a book with lists for its nodes, and what a brute force finds in them.
#[derive(Drop)]
struct Case<'b> {
    heap: Global,
    twig: Twig,
    members: &'b [Member],
    found: Found,
}

impl<'b> Case<'b> {
    // The largest number of useful regions of a node.
    fn most(&self) -> usize {
        let counts = self
            .found
            .useful
            .iter()
            .map(|list: &Vec<Region>| list.len());
        counts.max().unwrap_or(0)
    }

    // What a gather answers.
    fn answer(&self, share: usize) -> Result<(), Fault> {
        let most = self.most();
        if most > share {
            return Err(Refusal::FewRows.at(self.twig.len().wrapping_mul(most)));
        }
        Ok(())
    }

    // The rows after a gather that is granted.
    fn rows(&self, share: usize, len: usize) -> Result<Vec<Row>, AllocError> {
        let mut rows = Vec::new(self.heap);
        for list in &self.found.useful {
            for k in 0..share {
                rows.push(list.get(k).map_or(BLANK, |r| Row::from(*r)))?;
            }
        }
        for _ in rows.len()..len {
            rows.push(BLANK)?;
        }
        Ok(rows)
    }

    // After a gather the lists of the nodes are empty, and the others have all their regions.
    fn check_lists(&self, rt: &impl Abort, set: &mut Listed) -> Result<(), AllocError> {
        for i in 0..self.twig.len() {
            assert_eq!(rt; set.tell(i), None);
        }
        for i in self.twig.len()..=POSITIONS {
            for r in &brute::list(self.heap, self.members, i)? {
                assert_eq!(rt; set.tell(i), Some(*r));
                set.advance(i);
            }
            assert_eq!(rt; set.tell(i), None);
        }
        Ok(())
    }

    // The pages of a search after a gather, in this table: if it was granted, they have the places of all embeddings; if not, each is refused.
    fn check_pages(
        &self,
        rt: &impl Abort,
        search: &mut Search,
        table: &mut [Place],
        granted: bool,
    ) {
        if !granted {
            assert_eq!(rt; search.page(table), Err(Refusal::Ungathered.at(0)));
            assert_eq!(rt; search.rewind(), Err(Refusal::Ungathered.at(0)));
            return;
        }
        // A page and a rewind before them change nothing.
        assert!(rt; search.page(table).is_ok() == !self.found.places.is_empty());
        assert_eq!(rt; search.rewind(), Ok(()));
        let mut left = self.found.places.as_slice();
        for _ in 0..=left.len() {
            table.fill(OLD_PLACE);
            let count = table.len().min(left.len());
            let answer = if count > 0 {
                Ok(count)
            } else {
                Err(Refusal::ListedOut.at(0))
            };
            assert_eq!(rt; search.page(table), answer);
            assert!(rt;
                table
                    .iter()
                    .zip(left)
                    .all(|(place, expected)| place == expected)
            );
            assert!(rt; table.iter().skip(count).all(|place| *place == OLD_PLACE));
            left = left.get(count..).unwrap_or(&[]);
            if count == 0 {
                break;
            }
        }
        assert!(rt; left.is_empty());
        assert_eq!(rt; search.page(&mut []), Err(Refusal::NoPlace.at(0)));
        assert_eq!(rt; search.rewind(), Ok(()));
    }

    // A search with shares of this size and some rows more.
    fn check(&self, rt: &impl Abort, share: usize, spare: usize) -> Result<(), Fail> {
        let len = self.twig.len().wrapping_mul(share).wrapping_add(spare);
        let mut rows = vec![in self.heap; OLD_ROW; len]?;
        let more = self.found.places.len().wrapping_add(1);
        let mut table = vec![in self.heap; OLD_PLACE; more]?;
        let mut set = Listed::new(self.members).expect(rt, "a lawful book");
        let mut search = Search::begin(&self.twig, rows.as_mut_slice());
        let given = search.gather(&mut set);
        assert_eq!(rt; given, self.answer(share));
        self.check_pages(rt, &mut search, &mut [OLD_PLACE; 1], given.is_ok());
        self.check_pages(rt, &mut search, &mut [OLD_PLACE; 2], given.is_ok());
        self.check_pages(rt, &mut search, &mut [OLD_PLACE; 7], given.is_ok());
        self.check_pages(rt, &mut search, table.as_mut_slice(), given.is_ok());
        search.close();
        self.check_lists(rt, &mut set)?;
        if given.is_ok() {
            assert!(rt; rows.as_slice() == self.rows(share, len)?.as_slice());
        } else {
            assert!(rt; rows.iter().all(|row| *row == BLANK));
        }
        Ok(())
    }
}

// Every plan over some books.
#[test]
fn small_books(rt: HostRuntime) -> Result<(), Fail> {
    let heap = rt.alloc();
    let mut random = Random::new(1);
    for k in 0..NUMBERS {
        let Some(plan) = Plan::numbered(heap, k)? else {
            continue;
        };
        let twig = plan.twig(&rt, heap)?;
        for _ in 0..8 {
            // Rather more regions than few, since in few there is little to find.
            let regions = random.below(14).max(random.below(14)).wrapping_add(1);
            // Where there are many nodes and regions the lists are shorter, or else there are too many choices.
            let part = if twig.len() < 4 || regions < 10 {
                random.below(3).wrapping_add(2)
            } else {
                2
            };
            let closed = random.below(3).wrapping_add(2);
            let members = random_book(heap, &mut random, regions, part, closed)?;
            let members = members.as_slice();
            let found = brute::search(heap, &plan, members)?;
            let case = Case {
                heap,
                twig,
                members,
                found,
            };
            let most = case.most();
            let spare = random.below(twig.len());
            case.check(&rt, random.below(most), spare)?;
            case.check(&rt, most.wrapping_add(random.below(2)), spare)?;
        }
    }
    Ok(())
}
