use crate::tables::{assert_printed, assert_reported, assert_rows, owned, printed};
use druid_segment_descriptor::{Ask, Mark, Reply};
use druid_sync_text::{AskFault, SyncFault, ask_target, read_ask, read_reply, reply_text};
use std::alloc::Global;
use std::process::Abort;

// Texts of replies, and what is reported of them: `same` is the same text again. The first is of a delta without changes at
// count 5 of incarnation 1.
const REPLIES: &str =
    "{\"counter\":{\"counter\":5,\"hash\":1},\"from\":{\"counter\":5,\"hash\":1},\"requests\":[],\"resetCause\":null,\"resetCounter\":false} = same
{\"counter\":{\"counter\":6,\"hash\":1},\"from\":{\"counter\":5,\"hash\":1},\"requests\":[],\"resetCause\":null,\"resetCounter\":false} = Y3: a delta of another length
{\"counter\":{\"counter\":5,\"hash\":2},\"from\":{\"counter\":5,\"hash\":1},\"requests\":[],\"resetCause\":null,\"resetCounter\":false} = Y3: a delta of another length
{\"counter\":{\"counter\":5,\"hash\":0},\"from\":{\"counter\":5,\"hash\":1},\"requests\":[],\"resetCause\":null,\"resetCounter\":false} = Y2: not a reply
{\"counter\":{\"counter\":5,\"hash\":1},\"from\":{\"counter\":5,\"hash\":1},\"requests\":[],\"resetCause\":null,\"resetCounter\":true} = Y2: not a reply
{\"counter\":{\"counter\":5,\"hash\":1},\"from\":{\"counter\":5,\"hash\":1},\"requests\":[],\"resetCause\":\"Ahead\",\"resetCounter\":false} = Y2: not a reply
{\"counter\":{\"counter\":5,\"hash\":1},\"from\":null,\"requests\":[],\"resetCause\":\"Ahead\",\"resetCounter\":true} = same
{\"counter\":{\"counter\":5,\"hash\":1},\"from\":null,\"requests\":[],\"resetCause\":\"TooOld\",\"resetCounter\":true} = same
{\"counter\":{\"counter\":5,\"hash\":1},\"from\":null,\"requests\":[],\"resetCause\":\"OtherIncarnation\",\"resetCounter\":true} = same
{\"counter\":{\"counter\":5,\"hash\":1},\"from\":null,\"requests\":[],\"resetCause\":\"Late\",\"resetCounter\":true} = Y2: not a reply
{\"counter\":{\"counter\":5,\"hash\":1},\"from\":null,\"requests\":[],\"resetCause\":null,\"resetCounter\":false} = same
{\"counter\":{\"counter\":5,\"hash\":1},\"from\":null,\"requests\":[{\"action\":\"load\",\"dataSource\":\"wiki\",\"interval\":\"2024-01-01T00:00:00.000Z/2024-01-02T00:00:00.000Z\",\"shardSpec\":{\"partitionNum\":0,\"partitions\":1,\"type\":\"numbered\"},\"size\":7,\"version\":\"v1\"},{\"action\":\"load\",\"dataSource\":\"wiki\",\"interval\":\"2024-01-01T00:00:00.000Z/2024-01-02T00:00:00.000Z\",\"shardSpec\":{\"partitionNum\":3,\"partitions\":1,\"type\":\"numbered\"},\"size\":7,\"version\":\"v1\"}],\"resetCause\":null,\"resetCounter\":false} = same
{\"counter\":{\"counter\":5,\"hash\":1},\"from\":{\"counter\":3,\"hash\":1},\"requests\":[{\"action\":\"load\",\"dataSource\":\"wiki\",\"interval\":\"2024-01-01T00:00:00.000Z/2024-01-02T00:00:00.000Z\",\"shardSpec\":{\"partitionNum\":0,\"partitions\":1,\"type\":\"numbered\"},\"size\":7,\"version\":\"v1\"},{\"action\":\"drop\",\"dataSource\":\"wiki\",\"interval\":\"2024-01-01T00:00:00.000Z/2024-01-02T00:00:00.000Z\",\"shardSpec\":{\"partitionNum\":3,\"partitions\":1,\"type\":\"numbered\"},\"size\":7,\"version\":\"v1\"}],\"resetCause\":null,\"resetCounter\":false} = same
{\"counter\":{\"counter\":5,\"hash\":1},\"from\":null,\"requests\":[{\"action\":\"drop\",\"dataSource\":\"wiki\",\"interval\":\"2024-01-01T00:00:00.000Z/2024-01-02T00:00:00.000Z\",\"shardSpec\":{\"partitionNum\":3,\"partitions\":1,\"type\":\"numbered\"},\"size\":7,\"version\":\"v1\"}],\"resetCause\":null,\"resetCounter\":false} = Y2: not a reply
{\"counter\":{\"counter\":5,\"hash\":1},\"from\":null,\"requests\":[{\"action\":\"load\",\"dataSource\":\"wiki\",\"interval\":\"2024-01-01T00:00:00.000Z/2024-01-02T00:00:00.000Z\",\"shardSpec\":{\"partitionNum\":0,\"partitions\":1,\"type\":\"numbered\"},\"size\":0,\"tombstone\":true,\"version\":\"v1\"}],\"resetCause\":null,\"resetCounter\":false} = same
{\"counter\":{\"counter\":5,\"hash\":1},\"from\":null,\"requests\":[{\"action\":\"load\",\"dataSource\":\"wiki\",\"interval\":\"2024-01-01T00:00:00.000Z/2024-01-02T00:00:00.000Z\",\"shardSpec\":{\"partitionNum\":1,\"partitions\":1,\"type\":\"numbered\"},\"size\":0,\"tombstone\":true,\"version\":\"v1\"}],\"resetCause\":null,\"resetCounter\":false} = Y2: not a reply
[ = Y1: not JSON
[] = Y2: not a reply";

// Query strings, and the targets of the asks that they tell.
const ASKS: &str = " = /druid-internal/v1/segments
counter=5&hash=1 = /druid-internal/v1/segments?counter=5&hash=1
hash=1&counter=0&timeout=60000 = /druid-internal/v1/segments?counter=0&hash=1
counter=18446744073709551615&hash=18446744073709551615 = /druid-internal/v1/segments?counter=18446744073709551615&hash=18446744073709551615
counter=-1&timeout=60000 = /druid-internal/v1/segments
timeout=60000 = /druid-internal/v1/segments
counter=5 = Y6: not a mark
hash=1 = Y6: not a mark
counter=-1&hash=1 = Y6: not a mark
counter=5&hash=0 = Y6: not a mark
counter=05&hash=1 = Y6: not a mark
counter=+5&hash=1 = Y6: not a mark
counter=5&hash=1&hash=1 = Y6: not a mark
counter=18446744073709551616&hash=1 = Y6: not a mark
counter&hash=1 = Y6: not a mark";

// What is written of a reply, or `same` where that is the text that it was read from.
fn written(rt: &impl Abort, alloc: Global, reply: &Reply, text: &str) -> String {
    let written = reply_text(alloc, reply).expect(rt, "memory");
    if written.as_str() == text {
        return owned(rt, alloc, "same");
    }
    written
}

fn reply_reported(rt: &impl Abort, alloc: Global, text: &str) -> String {
    match read_reply(alloc, text.as_bytes()) {
        Ok(reply) => written(rt, alloc, &reply, text),
        Err(fault) => printed(rt, alloc, &fault),
    }
}

fn target(rt: &impl Abort, alloc: Global, ask: &Ask) -> String {
    ask_target(alloc, ask).expect(rt, "memory")
}

fn ask_reported(rt: &impl Abort, alloc: Global, query: &str) -> String {
    match read_ask(query) {
        Ok(ask) => target(rt, alloc, &ask),
        Err(fault) => printed(rt, alloc, &fault),
    }
}

#[test]
fn replies_and_asks(rt: HostRuntime) {
    assert_rows(&rt, rt.alloc(), REPLIES, reply_reported);
    assert_rows(&rt, rt.alloc(), ASKS, ask_reported);
}

// The text of the first row.
fn first_reply(rt: &impl Abort) -> &'static str {
    let (text, _) = REPLIES.split_once(" = ").expect(rt, "no row");
    text
}

#[test]
fn empty_delta_of_117_bytes(rt: HostRuntime) {
    assert!(rt; first_reply(&rt).len() == 117);
    let target = target(&rt, rt.alloc(), &Ask::Since(Mark::new(1, 5)));
    assert_reported(
        &rt,
        "1 5",
        target,
        "/druid-internal/v1/segments?counter=5&hash=1",
    );
}

#[test]
fn faults_print_these_texts(rt: HostRuntime) {
    let of_replies = [
        (SyncFault::TooMany, "Y5: too many segments or changes"),
        (SyncFault::DoubledSegment, "Y4: a doubled segment"),
        (SyncFault::Memory, "Y9: out of memory"),
    ];
    assert_printed(&rt, rt.alloc(), &of_replies);
    assert_printed(&rt, rt.alloc(), &[(AskFault::BadCounter, "Y6: not a mark")]);
}
