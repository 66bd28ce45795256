//! What a broker answers where its view has no reading.
ghost use Rattle.std.specs.Prelude.{◌≡◌};

use crate::broker::{message, query};
use crate::cluster::{Cluster, Handle, Setup, answered_alone, followed, message_of, set_up};
use crate::tables::{assert_reported, halves};
use druid_inventory_views::Publication;
use std::alloc::Global;
use std::marker::Brand;
use std::process::Abort;

// Messages to a broker whose publisher is gone, and what it answers: where the answer takes the inventory, and where
// it takes none. `|` stands for a carriage return and a line feed; with `@` in front it is a query that is posted.
const UNREAD: &str = "GET /druid/v2/datasources HTTP/1.1|| = 500 {\"error\":\"NoReading\"}
GET /druid/broker/v1/loadstatus HTTP/1.1|| = 500 {\"error\":\"NoReading\"}
GET /druid-internal/v1/inventory/0 HTTP/1.1|| = 500 {\"error\":\"NoReading\"}
@,\"aggregations\":[{\"type\":\"count\",\"name\":\"n\"}]} = 500 {\"error\":\"NoReading\"}
@,\"descending\":true} = 400 {\"error\":\"Q3\",\"field\":\"descending\"}
@,\"dataSource\":1} = 400 {\"error\":\"Q3\",\"field\":\"dataSource\"}
GET /druid/v2 HTTP/1.1|| = 405 {\"error\":\"Method\"}
GET /druid-internal/v1/inventory/0?page=0 HTTP/1.1|| = 400 {\"error\":\"Y6\"}
GET /druid-internal/v1/inventory/x HTTP/1.1|| = 404 {\"error\":\"V2\"}
POST /druid/v2/datasources HTTP/1.1|Content-Length: 0|| = 405 {\"error\":\"Method\"}
GET /status/health HTTP/1.1|| = 200 true
GET / HTTP/1.1|| = 404 {\"error\":\"NoRoute\"}
GET / HTTP/9|| = 400 {\"error\":\"X4\"}";

// What a broker without a publisher answers to the message.
fn answer_alone<R: Handle, J: Publication>(
    rt: R,
    alloc: Global,
    setup: Setup<R>,
    message: Vec<u8>,
) -> String
    requires book { setup.list ≡ J.book }
    requires opening { setup.inventory ≡ J.opening }
{
    let made: Cluster<R, J> = followed(rt, alloc, setup, 1);
    answered_alone(alloc, made, &message)
}

// The message of a line.
fn bytes_of(rt: &impl Abort, alloc: Global, text: &str) -> Vec<u8> {
    if text.starts_with("@") {
        let query = query(rt, alloc, text);
        return message_of(rt, alloc, query.as_str()).into_bytes();
    }
    message(rt, alloc, text).into_bytes()
}

fn answer_to<R: Handle>(rt: R, alloc: Global, text: &str) -> String {
    let setup = set_up(rt, alloc, "v1/0/24/0/1 d:m 0/a/1");
    let message = bytes_of(&rt, alloc, text);
    answer_alone::<R, Brand>(rt, alloc, setup, message)
}

#[test]
fn unread_views(rt: HostRuntime) {
    for line in UNREAD.lines() {
        let (text, wanted) = halves(&rt, line, " = ");
        assert_reported(&rt, line, answer_to(&rt, rt.alloc(), text), wanted);
    }
}
