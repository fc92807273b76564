// What opening answers to sheets that are cut, lengthened or changed.
use crate::book::SHEET;
use markup::{Fault, Refusal};
use sheet::SheetView;
use std::process::Abort;
use std::test::Fail;

fn opened(bytes: &[u8]) -> Result<(), Fault> {
    let mut view = SheetView::new();
    view.open(bytes)
}

#[test]
fn refuses_other_lengths(rt: HostRuntime) {
    let mut long = [0; 200];
    long[0..135].copy_from_slice(&SHEET);
    for n in 0..200 {
        let wrong = Refusal::SheetLength.at(n);
        assert_eq!(rt;
            opened(&long[0..n]),
            if n == 135 { Ok(()) } else { Err(wrong) }
        );
    }
}

// Every value of every byte: how often each refusal comes, and the sum of its places. A refused view still shows the book.
#[test]
fn survives_every_change_of_a_byte(rt: HostRuntime) -> Result<(), Fail> {
    let mut answers = Vec::new(rt.alloc());
    // By numbers: each place of a copy is written in turn.
    for i in 0..135 {
        for value in 0..=255 {
            let mut bytes = SHEET;
            bytes[i] = value;
            let mut view = SheetView::new();
            assert_eq!(rt; view.open(&SHEET), Ok(()));
            let answer = view.open(&bytes);
            answers.push(answer)?;
            if answer.is_err() {
                assert!(rt; view.element_count() == 4 && view.next(1) == Some(3));
                assert_eq!(rt; view.find(b"n"), Some(2));
            }
        }
    }
    // Together all changes, so that no other refusal comes.
    assert_eq!(rt; answers.len(), 1057 + 8160 + 15548 + 9795);
    assert_eq!(rt; answers.iter().filter(|a| a.is_ok()).count(), 1057);
    for (refusal, count, sum) in [
        (Refusal::SheetLength, 0, 0),
        (Refusal::HeaderField, 8160, 120740),
        (Refusal::ElementRecord, 15548, 873200),
        (Refusal::NameRecord, 9795, 1057944),
    ] {
        let faults = answers.iter().filter_map(|a| a.err());
        let places = faults
            .filter(|f| f.refusal == refusal)
            .map(|f| f.place)
            .collect::<Vec<usize>>(rt.alloc())?;
        assert_eq!(rt; places.len(), count);
        assert_eq!(rt;
            places
                .iter()
                .try_fold(0usize, |sum, place| sum.checked_add(*place)),
            Some(sum)
        );
    }
    Ok(())
}

// Changes of one byte: its offset, its new value, and the place of the refusal.
static WRONG_FIELDS: [(usize, u8, usize); 11] = [
    // the version
    (0, 2, 0),
    // no elements
    (4, 0, 4),
    // 65,540 elements
    (6, 1, 4),
    // no names
    (8, 0, 8),
    // more names than elements
    (8, 5, 8),
    // the offsets
    (12, 33, 12),
    (16, 97, 16),
    (20, 133, 20),
    // fewer name bytes than names
    (24, 2, 24),
    // more than 32 for each name
    (24, 97, 24),
    // the total
    (28, 136, 28),
];

static WRONG_ELEMENTS: [(usize, u8, usize); 14] = [
    // an end at its start
    (36, 0, 32),
    // a level of 1 with none around
    (40, 1, 32),
    // name number 1 before 0
    (42, 1, 32),
    // a next with another name
    (44, 3, 32),
    // a start that does not rise
    (48, 0, 48),
    // an end outside the first element
    (52, 22, 48),
    // an end above 16,777,215
    (55, 1, 48),
    // a level of 2 with one around
    (56, 2, 48),
    // name number 2 before 1
    (58, 2, 48),
    // a next past the nearest
    (60, 4, 48),
    // an overlap
    (68, 11, 64),
    // a name number that no name has
    (74, 3, 64),
    // an overlap
    (80, 9, 80),
    // element 3 renamed: the next of element 1 is wrong, at a lower offset
    (90, 2, 48),
];

static WRONG_NAMES: [(usize, u8, usize); 8] = [
    // an offset with a gap
    (96, 1, 96),
    // not the first element
    (104, 1, 96),
    // `1`, which begins no name
    (132, 49, 96),
    // name 1 does not follow `bp`
    (100, 2, 108),
    // a second `b`
    (133, 98, 108),
    // an empty name
    (124, 0, 120),
    // a name past the end
    (124, 2, 120),
    // a space
    (134, 32, 120),
];

fn check_changes(rt: &impl Abort, changes: &[(usize, u8, usize)], refusal: Refusal) {
    for &(at, value, place) in changes {
        let mut bytes = SHEET;
        assert!(rt; at < 135);
        bytes[at] = value;
        assert_eq!(rt; opened(&bytes), Err(refusal.at(place)));
    }
}

#[test]
fn refuses_at_the_first_wrong_place(rt: HostRuntime) {
    check_changes(&rt, &WRONG_FIELDS, Refusal::HeaderField);
    check_changes(&rt, &WRONG_ELEMENTS, Refusal::ElementRecord);
    check_changes(&rt, &WRONG_NAMES, Refusal::NameRecord);
}

// One name byte more, which no name takes.
#[test]
fn refuses_left_over_name_bytes(rt: HostRuntime) {
    let mut bytes = [b'x'; 136];
    bytes[0..135].copy_from_slice(&SHEET);
    bytes[24] = 4;
    bytes[28] = 136;
    let wrong = Refusal::NameRecord.at(132);
    assert_eq!(rt; opened(&bytes), Err(wrong));
}

// Elements 1, 2 and 3 are all `p`, so that no element has the name `n`.
#[test]
fn refuses_a_name_without_an_element(rt: HostRuntime) {
    let mut bytes = SHEET;
    bytes[60] = 2;
    bytes[74] = 1;
    bytes[76] = 3;
    let wrong = Refusal::NameRecord.at(120);
    assert_eq!(rt; opened(&bytes), Err(wrong));
}
