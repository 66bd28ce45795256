use crate::script::{assert_answered, assert_run, assert_too_many, named, push_row};
use crate::tables::{assert_printed, assert_rows, owned, printed};
use druid_replay::ReplayFault;
use druid_segment_descriptor::{Body, Reply};
use druid_sync_text::{SyncFault, read_reply};
use std::alloc::Global;
use std::process::Abort;

#[test]
fn one_node(rt: HostRuntime) {
    let rows = r#"@brokers; => {"brokers":1}
@lookup; => {"pieces":[]}
@node0;@at1;@load;@p0of1;@end;} => @moved1;
@lookup; => {"pieces":[{"chunk":"@day;","interval":"@day;","parts":[0],"version":"v1"}]}
@node0;@at1;@load;@p0of1;@end;} => {"mark":{"counter":1,"hash":1},"outcome":"AlreadyHave"}
@node0;@at1;@end;} => {"refused":"A5"}
@node0;@at2;@end;} => @moved2;
@lookup; => {"pieces":[]}"#;
    assert_answered(&rt, rt.alloc(), rows);
    assert_run(&rt, rt.alloc(), b"", Ok(()), b"");
}

#[test]
fn two_nodes(rt: HostRuntime) {
    let rows = r#"@brokers; => {"brokers":1}
@node0;@at1;@load;@p0of2;@end;} => @moved1;
@lookup; => {"pieces":[]}
@node1;@at2;@load;@p1of2;@end;} => @moved2;
@lookup; => {"pieces":[{"chunk":"@day;","interval":"@day;","parts":[0,1],"version":"v1"}]}
@node0;@at2;@load;@p1of2;,@load;@p0of2;@end;} => @moved2;
@lookup; => {"pieces":[{"chunk":"@day;","interval":"@day;","parts":[0,1],"version":"v1"}]}"#;
    assert_answered(&rt, rt.alloc(), rows);
}

// A tombstone overshadows what is older, and is there to be seen; one equal to a segment but for being one is another.
#[test]
fn tombstones(rt: HostRuntime) {
    let rows = r#"@brokers; => {"brokers":1}
@node0;@at1;@load;@p0of1;@end;} => @moved1;
@node1;@at1;@load2;@tomb2;@end;} => @moved1;
@lookup; => {"pieces":[{"chunk":"@day;","interval":"@morning;","parts":[0],"version":"v1"},{"chunk":"@noon;","interval":"@noon;","parts":[0],"version":"v2"},{"chunk":"@day;","interval":"@rest;","parts":[0],"version":"v1"}]}
@node1;@at1;@load2;@v2;@end;} => {"refused":"A5"}
@node1;@at1;@load2;@tomb2;@end;} => {"mark":{"counter":1,"hash":1},"outcome":"AlreadyHave"}
@node1;@at2;@end;} => @moved2;
@lookup; => {"pieces":[{"chunk":"@day;","interval":"@day;","parts":[0],"version":"v1"}]}"#;
    assert_answered(&rt, rt.alloc(), rows);
}

#[test]
fn refusals(rt: HostRuntime) {
    let rows = r#"{"count":1,"do":"brokers","nodes":["a b","a b"]} => {"refused":"I1"}
{"count":1,"do":"brokers","nodes":["a","a"]} => {"refused":"V1"}
@brokers; => {"brokers":1}
{"broker":0,"do":"lookup","interval":"x","source":""} => {"refused":"C1"}
{"broker":0,"do":"lookup","interval":"2024-13-01/2024-01-02","source":""} => {"refused":"C2"}
{"broker":0,"do":"lookup","interval":"2024-01-02/2024-01-02","source":""} => {"refused":"C3"}
{"broker":0,"do":"lookup","interval":"2024-01-01/2024-01-02","source":""} => {"refused":"I1"}
{"broker":0,"do":"reply","node":2,"reply":null} => {"refused":"Y2"}
{"broker":0,"do":"reply","node":2,"reply":@at1;@end;} => {"refused":"A1"}
@node0;@at1;@drop;@p0of1;@end;} => {"refused":"Y2"}
@node0;@at1;@load;@hashed;@end;} => {"refused":"Y2"}
@node0;@at1;],"resetCause":null,"resetCounter":true}} => {"refused":"Y2"}
@node0;@at1;],"resetCause":"TooOld","resetCounter":false}} => {"refused":"Y2"}
@node0;@at1;@load;@p0of1;@begun;} => {"refused":"Y2"}
@node0;{"counter":{"counter":1,"hash":0},"from":null,"requests":[@end;} => {"refused":"Y2"}
@node0;@at1;@load;@p0of1;,@load;@p0of1;@end;} => {"refused":"Y4"}
@lookup; => {"pieces":[]}"#;
    assert_answered(&rt, rt.alloc(), rows);
}

// Asserts that each of these lines is bad after that row.
fn assert_bad(rt: &impl Abort, alloc: Global, before: &str, lines: &str) {
    for line in lines.lines() {
        let rows = format!(in alloc; "{before}{line} => bad").expect(rt, "memory");
        assert_answered(rt, alloc, rows.as_str());
    }
}

#[test]
fn bad_lines(rt: HostRuntime) {
    let firsts = "\nx\n{}\n[]\n{\"do\":\"marks\"}\n@lookup;\n\u{feff}@brokers;
{\"count\":0,\"do\":\"brokers\",\"nodes\":[\"n0\"]}\n{\"count\":65,\"do\":\"brokers\",\"nodes\":[\"n0\"]}\n{\"count\":1.0,\"do\":\"brokers\",\"nodes\":[\"n0\"]}
{\"count\":1,\"do\":\"brokers\",\"nodes\":[]}\n{\"count\":1,\"do\":\"brokers\",\"nodes\":[\"a b\",1]}";
    assert_bad(&rt, rt.alloc(), "", firsts);
    let laters = r#"@brokers;

{"broker":1,"do":"lookup","interval":"x","source":"w"}
{"broker":1,"do":"marks"}
{"do":"join","from":1,"into":0}
{"do":"join","from":0,"into":1}
{"do":"equal","left":1,"right":0}
{"do":"equal","left":0,"right":1}
{"do":"equal","left":0}
{"broker":0,"do":"lookup","interval":1,"source":"w"}
{"broker":0,"do":"reply","node":65536,"reply":null}
{"broker":0,"do":"reply","node":0}"#;
    let before = "@brokers; => {\"brokers\":1}\n";
    assert_bad(&rt, rt.alloc(), before, laters);
}

// A line of that many bytes, which asks for brokers and ends in spaces.
fn padded(rt: &impl Abort, alloc: Global, length: &str) -> Vec<u8> {
    let length = length.parse::<usize>().expect(rt, "no length");
    let mut line = Vec::with_capacity(alloc, length).expect(rt, "memory");
    line.extend_from_slice(named("brokers").as_bytes())
        .expect(rt, "memory");
    line.resize(length, b' ').expect(rt, "memory");
    line
}

#[test]
fn longest_line(rt: HostRuntime) {
    let longest = padded(&rt, rt.alloc(), "16777216");
    assert_run(&rt, rt.alloc(), &longest, Ok(()), b"{\"brokers\":1}\n");
    let longer = padded(&rt, rt.alloc(), "16777217");
    let end = Err(ReplayFault::BadCommand(1));
    assert_run(&rt, rt.alloc(), &longer, end, b"");
}

#[test]
fn too_many_segments(rt: HostRuntime) {
    assert_too_many(&rt, rt.alloc(), "@page1;", 20_000);
}

// How reading a reply ends, as it is reported.
fn read_end(rt: &impl Abort, alloc: Global, text: &str) -> String {
    match read_reply(alloc, text.as_bytes()) {
        Ok(_) => owned(rt, alloc, "read"),
        Err(fault) => printed(rt, alloc, &fault),
    }
}

#[test]
fn fault_texts(rt: HostRuntime) {
    let read = "x = Y1: not JSON
null = Y2: not a reply";
    assert_rows(&rt, rt.alloc(), read, read_end);
    let rows = [
        (SyncFault::TooMany, "Y5: too many segments or changes"),
        (SyncFault::LengthOfDelta, "Y3: a delta of another length"),
        (SyncFault::DoubledSegment, "Y4: a doubled segment"),
        (SyncFault::BadPage, "Y7: a bad page"),
        (SyncFault::Memory, "Y9: out of memory"),
    ];
    assert_printed(&rt, rt.alloc(), &rows);
}

// Whether it is a snapshot without segments after one change.
fn is_empty_snapshot(reply: &Reply) -> bool {
    match reply.body() {
        Body::Snapshot { at, segments } => at.count() == 1 && segments.as_slice().is_empty(),
        _ => false,
    }
}

#[test]
fn a_reply_of_the_script(rt: HostRuntime) {
    let mut one = String::new(rt.alloc());
    push_row(&rt, &mut one, "@at1;@end;");
    let reply = read_reply(rt.alloc(), one.as_bytes()).expect(&rt, "no reply");
    assert!(rt; is_empty_snapshot(&reply));
}
