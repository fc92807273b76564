// What a view shows.
use crate::book::{ELEMENTS, SHEET};
use sheet::SheetView;

#[test]
fn shows_the_smallest_sheet_first(rt: HostRuntime) {
    let view = SheetView::new();
    assert!(rt; view.element_count() == 1 && view.name_count() == 1);
    assert_eq!(rt; view.name(0), Some(b"a".as_slice()));
    assert_eq!(rt; view.next(0), None);
    assert_eq!(rt; view.first(0), Some(0));
}

#[test]
fn shows_the_book(rt: HostRuntime) {
    let mut view = SheetView::new();
    assert_eq!(rt; view.open(&SHEET), Ok(()));
    assert!(rt; view.element_count() == 4 && view.name_count() == 3);
    for (k, element) in ELEMENTS.iter().enumerate() {
        assert_eq!(rt; view.element(k as u32), Some(*element));
    }
    assert_eq!(rt; view.element(4), None);
    for (k, next) in [None, Some(3), None, None, None].iter().enumerate() {
        assert_eq!(rt; view.next(k as u32), *next);
    }
    for (j, first) in [Some(0), Some(1), Some(2), None].iter().enumerate() {
        assert_eq!(rt; view.first(j as u32), *first);
    }
    assert_eq!(rt; view.name(0), Some(b"b".as_slice()));
    assert_eq!(rt; view.name(1), Some(b"p".as_slice()));
    assert_eq!(rt; view.name(2), Some(b"n".as_slice()));
    assert_eq!(rt; view.name(3), None);
    assert_eq!(rt; view.find(b"n"), Some(2));
    assert_eq!(rt; view.find(b"pn"), None);
}
