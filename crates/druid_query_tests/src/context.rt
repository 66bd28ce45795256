//! The timeout in a query's context.
use druid_query_context::timeout_of;
use std::alloc::Global;
use std::process::Abort;

fn assert_timeout(rt: &impl Abort, alloc: Global, text: &str, wanted: Option<u64>) {
    let timeout = timeout_of(alloc, text.as_bytes()).expect(rt, "memory");
    assert!(rt; timeout == wanted, "{text}");
}

// Texts that have a timeout, and what it is.
const TIMEOUTS: [(&str, u64); 7] = [
    (r#"{"context":{"timeout":50}}"#, 50),
    (r#"{"context":{"timeout":1},"queryType":"groupBy"}"#, 1),
    (
        r#"{"context":{"timeout":18446744073709551615}}"#,
        18_446_744_073_709_551_615,
    ),
    (r#"{"timeout":4,"context":{"queryId":"a","timeout":5}}"#, 5),
    (r#"{"context":{"\u0074imeout":7}}"#, 7),
    (r#"{"c\u006fntext":{"timeout":8}}"#, 8),
    (r#" { "context" : { "timeout" : 9 } } "#, 9),
];

// Texts that have none.
const OTHERS: [&str; 17] = [
    r#"{"context":{"timeout":0}}"#,
    r#"{"context":{"timeout":-1}}"#,
    r#"{"context":{"timeout":1.5}}"#,
    r#"{"context":{"timeout":18446744073709551616}}"#,
    r#"{"context":{"timeout":"50"}}"#,
    r#"{"context":{"timeout":null}}"#,
    r#"{"context":{"timeout":[50]}}"#,
    r#"{"context":{"timeout":{"timeout":50}}}"#,
    r#"{"context":{"a":{"timeout":50}}}"#,
    r#"{"context":[{"timeout":50}]}"#,
    r#"{"context":"timeout"}"#,
    r#"{"timeout":50}"#,
    r#"{"Context":{"timeout":50}}"#,
    r#"{"context":{"timeouts":50}}"#,
    r#"{"context":{"timeout":50}"#,
    "timeout",
    "",
];

#[test]
fn context_timeouts(rt: HostRuntime) {
    for (text, wanted) in &TIMEOUTS {
        assert_timeout(&rt, rt.alloc(), text, Some(*wanted));
    }
}

#[test]
fn contexts_without_a_timeout(rt: HostRuntime) {
    for text in &OTHERS {
        assert_timeout(&rt, rt.alloc(), text, None);
    }
}
