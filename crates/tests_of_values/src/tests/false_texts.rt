//! Texts that are nearly messages: cut short, too deep, with a wrong number, too long, or with one byte changed.

use crate::tests::said::expect_text;
use pres_wire::{Down, MAX_TEXT_BYTES, Up};
use std::alloc::Global;
use std::process::Abort;

const HELLO: &str = r#"{"m":"hello","s":["alice",1,1]}"#;

const OP: &str =
    r#"{"m":"op","n":1,"op":{"op":"set","path":"/a","value":1},"q":1,"s":["alice",1,1]}"#;

const LEFT: &str =
    r#"{"m":"left","op":{"op":"update","path":"/","values":{"last":{".sv":"timestamp"},"online":null}},"q":1,"s":["alice",1,1]}"#;

const SNAP: &str = r#"{"m":"snap","path":"/a","q":1,"r":1,"s":["bob",1,1],"value":null,"z":3}"#;

// Who reads a text.
#[derive(Clone, Copy)]
enum Reader {
    Server,
    Client,
}

// What the text is printed as, once it is read as a message; or its refusal, and that it is one.
fn read_by(rt: &impl Abort, alloc: Global, reader: Reader, text: &str) -> (String, bool) {
    match reader {
        Reader::Server => read_by_server(rt, alloc, text),
        Reader::Client => read_by_client(rt, alloc, text),
    }
}

fn read_by_server(rt: &impl Abort, alloc: Global, text: &str) -> (String, bool) {
    let message = match Up::decode(alloc, text) {
        Ok(message) => message,
        Err(fault) => return (format!(in alloc; "{fault:?}").expect(rt, "memory"), true),
    };
    let printed = message.encode(alloc);
    drop(message);
    (printed.expect(rt, "memory"), false)
}

fn read_by_client(rt: &impl Abort, alloc: Global, text: &str) -> (String, bool) {
    let message = match Down::decode(alloc, text) {
        Ok(message) => message,
        Err(fault) => return (format!(in alloc; "{fault:?}").expect(rt, "memory"), true),
    };
    let printed = message.encode(alloc);
    drop(message);
    (printed.expect(rt, "memory"), false)
}

// The text has this result, or has this refusal.
fn expect_read(rt: &impl Abort, alloc: Global, reader: Reader, text: &str, wanted: &str) {
    let (answer, _) = read_by(rt, alloc, reader, text);
    expect_text(rt, answer, wanted);
}

// The text's first bytes, up to this one.
fn beginning(rt: &impl Abort, alloc: Global, text: &str, end: usize) -> String {
    let mut begun = String::new(alloc);
    for letter in text.chars().take(end) {
        begun.push(letter).expect(rt, "memory");
    }
    begun
}

// Each beginning of the text, but for the whole, is no JSON.
fn expect_no_beginning(rt: &impl Abort, alloc: Global, reader: Reader, text: &str) {
    for end in 0..text.len() {
        let cut = beginning(rt, alloc, text, end);
        expect_read(rt, alloc, reader, cut.as_str(), "NotJson");
    }
}

#[test]
fn beginnings_are_no_json(rt: HostRuntime) {
    expect_no_beginning(&rt, rt.alloc(), Reader::Server, HELLO);
    expect_no_beginning(&rt, rt.alloc(), Reader::Server, OP);
    expect_no_beginning(&rt, rt.alloc(), Reader::Server, LEFT);
    expect_no_beginning(&rt, rt.alloc(), Reader::Client, SNAP);
}

// The text this many times.
fn repeated(rt: &impl Abort, alloc: Global, text: &str, times: usize) -> String {
    let mut made = String::new(alloc);
    for _ in 0..times {
        made.push_str(text).expect(rt, "memory");
    }
    made
}

// An Op that sets the root to this many objects, each in the one before, with 1 in the last.
fn nested_op(rt: &impl Abort, alloc: Global, depth: usize) -> String {
    let opened = repeated(rt, alloc, r#"{"a":"#, depth);
    let closed = repeated(rt, alloc, "}", depth);
    let text = format!(in alloc;
        r#"{{"m":"op","n":1,"op":{{"op":"set","path":"/","value":{opened}1{closed}}},"q":1,"s":["alice",1,1]}}"#
    );
    text.expect(rt, "memory")
}

#[test]
fn deep_values_are_refused(rt: HostRuntime) {
    let accepted = nested_op(&rt, rt.alloc(), 32);
    expect_read(
        &rt,
        rt.alloc(),
        Reader::Server,
        accepted.as_str(),
        accepted.as_str(),
    );
    for depth in [33, 125] {
        let text = nested_op(&rt, rt.alloc(), depth);
        expect_read(
            &rt,
            rt.alloc(),
            Reader::Server,
            text.as_str(),
            "Write(Tree(TooDeep))",
        );
    }
    let text = nested_op(&rt, rt.alloc(), 126);
    expect_read(&rt, rt.alloc(), Reader::Server, text.as_str(), "NotJson");
}

// The refusal of a Bye with this text as its number.
fn expect_no_number(rt: &impl Abort, alloc: Global, number: &str) {
    let text = format!(in alloc; r#"{{"m":"bye","q":{number},"s":["a",1,1]}}"#).expect(
        rt, "memory",
    );
    expect_read(rt, alloc, Reader::Server, text.as_str(), "Field(Q)");
}

#[test]
fn numbers_are_whole_and_below_2_to_53(rt: HostRuntime) {
    expect_no_number(&rt, rt.alloc(), "9007199254740992");
    expect_no_number(&rt, rt.alloc(), "1.0");
}

#[test]
fn long_texts_are_refused_whatever_they_hold(rt: HostRuntime) {
    for letter in ["[", "a", "\"", " ", "\u{e9}"] {
        let text = repeated(&rt, rt.alloc(), letter, MAX_TEXT_BYTES + 1);
        expect_read(&rt, rt.alloc(), Reader::Server, text.as_str(), "TooLong");
    }
}

// What is put in the place of a byte. The last is no UTF-8.
const PUT: [&[u8]; 12] = [
    b"{",
    b"}",
    b"[",
    b"]",
    b"\"",
    b",",
    b":",
    b"0",
    b"-",
    b"\\",
    b"\xc3\xa9",
    b"\xff",
];

// The text with these bytes in the place of one, where that is UTF-8.
fn changed(rt: &impl Abort, alloc: Global, text: &str, place: usize, put: &[u8]) -> Option<String> {
    let mut bytes = Vec::new(alloc);
    for (index, byte) in text.bytes().enumerate() {
        if index == place {
            bytes.extend_from_slice(put).expect(rt, "memory");
        } else {
            bytes.push(byte).expect(rt, "memory");
        }
    }
    String::from_utf8(bytes).ok()
}

// Whether the text is a message, which is printed as one that reads the same.
fn is_message(rt: &impl Abort, alloc: Global, reader: Reader, text: &str) -> bool {
    let (printed, is_refused) = read_by(rt, alloc, reader, text);
    if !is_refused {
        expect_read(rt, alloc, reader, printed.as_str(), printed.as_str());
    }
    !is_refused
}

// Of each text that comes of changing a byte of this one whether it is a message.
fn changes(rt: &impl Abort, alloc: Global, reader: Reader, text: &str, tried: &mut Vec<bool>) {
    for place in 0..text.len() {
        for put in PUT {
            let text = changed(rt, alloc, text, place, put);
            let is_read = match text {
                Some(text) => is_message(rt, alloc, reader, text.as_str()),
                None => false,
            };
            tried.push(is_read).expect(rt, "memory");
        }
    }
}

#[test]
fn changed_bytes_are_refused_or_read_the_same(rt: HostRuntime) {
    let mut tried = Vec::new(rt.alloc());
    for text in [HELLO, OP, LEFT] {
        changes(&rt, rt.alloc(), Reader::Server, text, &mut tried);
    }
    changes(&rt, rt.alloc(), Reader::Client, SNAP, &mut tried);
    assert!(rt; tried.len() >= 2000, "fewer than 2,000 texts");
    assert!(rt; tried.contains(&true), "no text is a message");
}
