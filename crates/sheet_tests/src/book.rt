// The elements, the names and the sheet of `<b><p><n/></p><p></p></b>`.
use tree::Element;

pub static ELEMENTS: [Element; 4] = [
    Element {
        start: 0,
        end: 21,
        level: 0,
        name: 0,
    },
    Element {
        start: 3,
        end: 10,
        level: 1,
        name: 1,
    },
    Element {
        start: 6,
        end: 8,
        level: 2,
        name: 2,
    },
    Element {
        start: 14,
        end: 17,
        level: 1,
        name: 1,
    },
];

pub static NAMES: [&[u8]; 3] = [b"b", b"p", b"n"];

pub static SHEET: [u8; 135] = *b"\x01\0\0\0\x04\0\0\0\x03\0\0\0\x20\0\0\0\
    \x60\0\0\0\x84\0\0\0\x03\0\0\0\x87\0\0\0\
    \0\0\0\0\x15\0\0\0\0\0\0\0\x04\0\0\0\
    \x03\0\0\0\x0a\0\0\0\x01\0\x01\0\x03\0\0\0\
    \x06\0\0\0\x08\0\0\0\x02\0\x02\0\x04\0\0\0\
    \x0e\0\0\0\x11\0\0\0\x01\0\x01\0\x04\0\0\0\
    \0\0\0\0\x01\0\0\0\0\0\0\0\
    \x01\0\0\0\x01\0\0\0\x01\0\0\0\
    \x02\0\0\0\x01\0\0\0\x02\0\0\0\
    bpn";
