//! What is logged and counted of turns.
use druid_broker_follow::{Marks, Observe, TurnFault, Turned};
use druid_broker_watcher::TurnWatcher;
use druid_http_message::WireFault;
use druid_inventory::Outcome;
use druid_segment_descriptor::Mark;
use druid_telemetry_log::{Level, open, write_lines};
use druid_telemetry_metrics::{FollowMeter, TURN_ENDS};
use std::alloc::Global;
use std::process::Abort;
use std::str;
use std::sync::{Arc, Wait};
use std::time::Clock;

fn text_of(rt: &impl Abort, alloc: Global, text: &str) -> String {
    String::from_str(alloc, text).expect(rt, "memory")
}

// A turn by a letter: `m` moved to a mark of incarnation 5, `s` nothing new there, `f` a node that was started anew in incarnation 1
// with its folder lost, `x` no connection, `4` a status of 503.
fn turned(letter: char) -> Turned {
    let (held, shown) = (Mark::new(5, 2), Mark::new(5, 3));
    let (outcome, marks) = match letter {
        'm' => (Ok(Outcome::Moved), Some(Marks { held, shown })),
        's' => (Ok(Outcome::AlreadyHave), Some(Marks { held: shown, shown })),
        'f' => {
            let fallen = Mark::new(1, 1);
            (
                Ok(Outcome::AlreadyHave),
                Some(Marks {
                    held: shown,
                    shown: fallen,
                }),
            )
        }
        '4' => (Err(TurnFault::Status(503)), None),
        _ => (Err(TurnFault::Wire(WireFault::Connect)), None),
    };
    Turned { outcome, marks }
}

// What is written and counted of turns.
fn watched<R: Abort + Wait + Clock + Copy + Drop>(
    rt: &R,
    alloc: Global,
    turns: &str,
    meter: &Arc<FollowMeter, Global>,
) -> Vec<u8> {
    let (log, lines) = open(alloc, Level::Info).expect(rt, "memory");
    let log = Arc::new(alloc, log).expect(rt, "memory");
    let meter = Arc::try_clone(meter).expect(rt, "memory");
    let (server, node) = (text_of(rt, alloc, "broker:0"), text_of(rt, alloc, "n1"));
    let mut watcher = TurnWatcher::new(*rt, alloc, server, node, log, meter);
    for letter in turns.chars() {
        watcher.turn(&turned(letter));
    }
    drop(watcher);
    let mut out = Vec::new(alloc);
    if let Some(lines) = lines {
        write_lines(rt, alloc, &lines, &mut out);
    }
    out
}

// Asserts that lines end as is said, one after another.
fn assert_lines(rt: &impl Abort, bytes: &[u8], wanted: &str) {
    let text = str::from_utf8(bytes).expect(rt, "a text");
    assert!(rt; text.lines().count() == wanted.lines().count(), "{text}");
    for (line, end) in text.lines().zip(wanted.lines()) {
        assert!(rt; line.ends_with(end), "{line}");
    }
}

#[test]
fn turns(rt: HostRuntime) {
    let alloc = rt.alloc();
    let meter = FollowMeter::new(alloc).expect(&rt, "memory");
    let meter = Arc::new(alloc, meter).expect(&rt, "memory");
    let out = watched(&rt, alloc, "xxxmxx4sffsf", &meter);
    let wanted = "\"code\":\"K1: X8\",\"event\":\"lost\",\"node\":\"n1\",\"server\":\"broker:0\"}
\"event\":\"found\",\"failed\":3,\"node\":\"n1\",\"server\":\"broker:0\"}
\"code\":\"K1: X8\",\"event\":\"lost\",\"node\":\"n1\",\"server\":\"broker:0\"}
\"event\":\"found\",\"failed\":3,\"node\":\"n1\",\"server\":\"broker:0\"}
\"event\":\"fell\",\"held\":{\"counter\":3,\"hash\":5},\"node\":\"n1\",\"server\":\"broker:0\",\"shown\":{\"counter\":1,\"hash\":1}}
\"event\":\"fell\",\"held\":{\"counter\":3,\"hash\":5},\"node\":\"n1\",\"server\":\"broker:0\",\"shown\":{\"counter\":1,\"hash\":1}}";
    assert_lines(&rt, &out, wanted);
    let followed = meter
        .read(alloc, "n1", Vec::new(alloc))
        .expect(&rt, "memory");
    assert!(&rt; followed.incarnation == 5 && followed.changes == 3 && followed.heard > 0);
    let counts = Vec::from_slice(alloc, &[1u64, 5, 0, 0, 5, 0, 0, 1, 0, 0, 0]);
    let counts = counts.expect(&rt, "memory");
    assert!(&rt; TURN_ENDS.len() == 11 && followed.turns.as_slice() == counts.as_slice());
}
