// What encoding writes and answers.
use crate::book::{ELEMENTS, NAMES, SHEET};
use markup::Refusal;
use sheet::encode;
use tree::Element;

#[test]
fn writes_the_book(rt: HostRuntime) {
    let mut out = [7; 140];
    assert_eq!(rt; encode(&ELEMENTS, &NAMES, &mut out), Ok(135));
    assert!(rt; out[0..135] == SHEET[0..135]);
    assert!(rt; out[135..140] == [7; 5]);
}

#[test]
fn wants_all_bytes(rt: HostRuntime) {
    let mut out = [7; 134];
    let short = Refusal::SheetWontFit.at(135);
    assert_eq!(rt; encode(&ELEMENTS, &NAMES, &mut out), Err(short));
    assert!(rt; out == [7; 134]);
}

#[test]
fn refuses_a_number_without_a_name(rt: HostRuntime) {
    let mut out = [7; 140];
    let wrong = Refusal::ElementRecord.at(64);
    assert_eq!(rt; encode(&ELEMENTS, &NAMES[0..2], &mut out), Err(wrong));
    assert!(rt; out == [7; 140]);
}

#[test]
fn refuses_a_long_name(rt: HostRuntime) {
    let names: [&[u8]; 3] = [b"b", b"p", b"n23456789012345678901234567890123"];
    let mut out = [7; 200];
    let wrong = Refusal::NameRecord.at(120);
    assert_eq!(rt; encode(&ELEMENTS, &names, &mut out), Err(wrong));
}

#[test]
fn refuses_too_many_names(rt: HostRuntime) {
    let name: &[u8] = b"a";
    let names = [name; 1025];
    let mut out = [7; 200];
    let wrong = Refusal::HeaderField.at(8);
    assert_eq!(rt; encode(&ELEMENTS, &names, &mut out), Err(wrong));
}

#[test]
fn refuses_too_many_elements(rt: HostRuntime) {
    let element = Element {
        start: 0,
        end: 1,
        level: 0,
        name: 0,
    };
    let elements = [element; 65_536];
    let mut out = [7; 200];
    let wrong = Refusal::HeaderField.at(4);
    assert_eq!(rt; encode(&elements, &NAMES, &mut out), Err(wrong));
}
