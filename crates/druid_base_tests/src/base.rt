use crate::tables::{assert_printed, assert_reported, assert_rows, owned, printed};
use druid_base::{JsonFault, copy_text, parse_json};
use std::alloc::Global;
use std::process::Abort;

// Texts, and their JSON without blanks, or why there is none.
const PARSED: &str = r#"{"a": [1, null], "b": "x"} = {"a":[1,null],"b":"x"}
 = not JSON
[ = not JSON
[] [] = not JSON"#;

fn parsed(rt: &impl Abort, alloc: Global, text: &str) -> String {
    match parse_json(alloc, text.as_bytes()) {
        Ok(value) => value.to_string(alloc).expect(rt, "memory"),
        Err(fault) => printed(rt, alloc, &fault),
    }
}

fn copied(rt: &impl Abort, alloc: Global, text: Option<&str>) -> String {
    match copy_text(alloc, text).expect(rt, "memory") {
        Some(copy) => copy,
        None => owned(rt, alloc, "null"),
    }
}

#[test]
fn parses_and_copies(rt: HostRuntime) {
    assert_rows(&rt, rt.alloc(), PARSED, parsed);
    assert_reported(&rt, "x", copied(&rt, rt.alloc(), Some("x")), "x");
    assert_reported(&rt, "null", copied(&rt, rt.alloc(), None), "null");
}

#[test]
fn bytes_that_are_no_text_are_not_json(rt: HostRuntime) {
    assert!(rt; parse_json(rt.alloc(), b"\xff").err() == Some(JsonFault::NotJson));
}

#[test]
fn faults_print_these_texts(rt: HostRuntime) {
    assert_printed(&rt, rt.alloc(), &[(JsonFault::Memory, "out of memory")]);
}
