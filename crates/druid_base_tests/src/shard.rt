use crate::rows::first_segments;
use crate::tables::{assert_printed, assert_reported, assert_rows, owned, printed};
use druid_segment_descriptor::{Descriptor, Mark, Reply, ReplyFault};
use druid_segment_text::{ShardFault, descriptor_value, read_descriptor};
use serde_json::Value;
use std::alloc::Global;
use std::process::Abort;

// A descriptor's JSON; with `?` for a shard spec, and the refusal of what stands in its place or in place of all.
const WRITTEN: &str =
    r#"{"dataSource":"wiki","interval":"2024-01-01T00:00:00.000Z/2024-01-02T00:00:00.000Z","shardSpec":{"partitionNum":3,"partitions":4,"type":"numbered"},"size":7,"version":"v1"}"#;

const REFUSED: &str = r#"[] = S3: a bad field: dataSource
{"dataSource":"a/b"} = S3: a bad field: dataSource
{"dataSource":"a","interval":"2024-01-02/2024-01-01"} = S3: a bad field: interval
{"dataSource":"a","interval":"2024-01-01/2024-01-02","version":"a_b"} = S3: a bad field: version
{"dataSource":"a","interval":"2024-01-01/2024-01-02","version":"v","size":1.0} = S3: a bad field: size
{"dataSource":"a","interval":"2024-01-01/2024-01-02","version":"v","size":0,"shardSpec":[]} = S2: a bad shard spec
{"dataSource":"a","interval":"2024-01-01/2024-01-02","version":"v","size":0,"shardSpec":{"partitionNum":70000}} = S1: not a numbered shard spec
{"dataSource":"a","interval":"2024-01-01/2024-01-02","version":"v","size":0,"shardSpec":{"partitionNum":65536,"partitions":1,"type":"numbered"}} = S2: a bad shard spec
{"dataSource":"a","interval":"2024-01-01/2024-01-02","version":"v","size":0,"shardSpec":{"partitionNum":0,"partitions":32769,"type":"numbered"}} = S2: a bad shard spec
{"dataSource":"a","interval":"2024-01-01/2024-01-02","version":"v","size":0,"shardSpec":{"partitionNum":65535,"partitions":32768,"type":"numbered"}} = none
{"dataSource":"a","interval":"2024-01-01/2024-01-02","version":"v","size":0,"shardSpec":{"partitionNum":1,"partitions":1,"type":"numbered"},"tombstone":true} = S4: a bad tombstone
{"dataSource":"a","interval":"2024-01-01/2024-01-02","version":"v","size":0,"shardSpec":{"partitionNum":0,"partitions":0,"type":"numbered"},"tombstone":true} = S4: a bad tombstone
{"dataSource":"a","interval":"2024-01-01/2024-01-02","version":"v","size":1,"shardSpec":{"partitionNum":0,"partitions":1,"type":"numbered"},"tombstone":true} = S4: a bad tombstone
{"dataSource":"a","interval":"2024-01-01/2024-01-02","version":"v","size":0,"shardSpec":{"partitionNum":0,"partitions":1,"type":"numbered"},"tombstone":"true"} = S4: a bad tombstone
{"dataSource":"a","interval":"2024-01-01/2024-01-02","version":"v","size":0,"shardSpec":{"partitionNum":0,"partitions":70000,"type":"numbered"},"tombstone":1} = S2: a bad shard spec
{"dataSource":"a","interval":"2024-01-01/2024-01-02","version":"v","size":0,"shardSpec":{"partitionNum":0,"partitions":1,"type":"numbered"},"tombstone":true} = none
{"dataSource":"a","interval":"2024-01-01/2024-01-02","version":"v","size":9,"shardSpec":{"partitionNum":3,"partitions":2,"type":"numbered"},"tombstone":false} = none
{"dataSource":"a","interval":"2024-01-01/2024-01-02","version":"v","size":9,"shardSpec":{"partitionNum":3,"partitions":2,"type":"numbered"},"tombstone":null} = none"#;

// The JSON of a tombstone.
const TOMBSTONE: &str =
    r#"{"dataSource":"wiki","interval":"2024-01-01T00:00:00.000Z/2024-01-02T00:00:00.000Z","shardSpec":{"partitionNum":0,"partitions":1,"type":"numbered"},"size":0,"tombstone":true,"version":"v1"}"#;

fn read(rt: &impl Abort, alloc: Global, text: &str) -> Result<Descriptor, ShardFault> {
    let value = Value::from_str(alloc, text).expect(rt, "not JSON");
    read_descriptor(alloc, &value)
}

// The printed fault of a text that is no descriptor.
fn refusal(rt: &impl Abort, alloc: Global, text: &str) -> String {
    match read(rt, alloc, text) {
        Ok(_) => owned(rt, alloc, "none"),
        Err(fault) => printed(rt, alloc, &fault),
    }
}

fn written(rt: &impl Abort, alloc: Global, descriptor: &Descriptor) -> String {
    let value = descriptor_value(alloc, descriptor).expect(rt, "memory");
    value.to_string(alloc).expect(rt, "memory")
}

// What is written of a descriptor that was read from a text and copied.
fn written_again(rt: &impl Abort, alloc: Global, text: &str) -> String {
    let read = read(rt, alloc, text).expect(rt, "no descriptor");
    written(rt, alloc, &read.clone().expect(rt, "memory"))
}

#[test]
fn descriptors_written_again(rt: HostRuntime) {
    for text in [WRITTEN, TOMBSTONE] {
        let written = written_again(&rt, rt.alloc(), text);
        assert_reported(&rt, "it", written, text);
    }
}

#[test]
fn refused_descriptors(rt: HostRuntime) {
    assert_rows(&rt, rt.alloc(), REFUSED, refusal);
}

fn snapshot_fault(rt: &impl Abort, alloc: Global, count: u32) -> Option<ReplyFault> {
    Reply::snapshot(Mark::new(1, 4), first_segments(rt, alloc, count)).err()
}

#[test]
fn the_limit_of_a_snapshot(rt: HostRuntime) {
    assert!(rt; snapshot_fault(&rt, rt.alloc(), 200_000).is_none());
    assert!(rt; snapshot_fault(&rt, rt.alloc(), 200_001) == Some(ReplyFault::TooMany));
}

#[test]
fn texts_of_faults(rt: HostRuntime) {
    assert_printed(
        &rt,
        rt.alloc(),
        &[(ShardFault::Memory, "S9: out of memory")],
    );
    let rows = [
        (ReplyFault::TooMany, "Y5: too many segments or changes"),
        (ReplyFault::LengthOfDelta, "Y3: a delta of another length"),
        (ReplyFault::DoubledSegment, "Y4: a doubled segment"),
        (ReplyFault::BadPage, "Y7: a bad page"),
        (ReplyFault::Memory, "Y9: out of memory"),
    ];
    assert_printed(&rt, rt.alloc(), &rows);
}
