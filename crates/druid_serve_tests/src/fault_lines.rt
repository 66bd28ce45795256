//! What is said of a cluster that is not served, below its fault.
use crate::config::{changed, halves, with_doubled};
use crate::folders::put;
use crate::host::{Host, environment};
use crate::serve::{Full, Place, clear, config, place_of};
use druid_program::{run, serve_config};
use druid_serve_config::bad_field_in;
use std::alloc::Global;
use std::net::{Net, TcpListener, TcpStream};
use std::process::Abort;
use std::str;

// What is said of the field of a config that is wrong.
fn field_of(rt: &impl Abort, alloc: Global, text: &str) -> String {
    match bad_field_in(alloc, text.as_bytes()).expect(rt, "memory") {
        Some(bad) => format!(in alloc; "{bad}").expect(rt, "memory"),
        None => String::new(alloc),
    }
}

// Asserts what is said of the config in which the second text of a row stands in the place of the first.
fn assert_field(rt: &impl Abort, alloc: Global, row: &str) {
    let (from, rest) = halves(rt, row, " = ");
    let (to, wanted) = halves(rt, rest, " -> ");
    let reported = field_of(rt, alloc, changed(rt, alloc, from, to).as_str());
    assert!(rt; reported.as_str() == wanted, "{row}: {reported}");
}

#[test]
fn fields(rt: HostRuntime) {
    let rows = "\"turns\":1000000} = \"turns\":1000000 -> the config: not JSON in UTF-8
\"turns\":1000000 = \"turn\":1 -> turns: not a number from 0 to 1000000
\"connections\":0 = \"connections\":1000001 -> connections: not a number from 0 to 1000000
\"kept\":1000 = \"kept\":0 -> kept: not a number from 1 to 1000
\"kept\":1000,\"nodes\" = \"kept\":0,\"node\" -> kept: not a number from 1 to 1000
\"nodes\" = \"node\" -> nodes: not a list
\"n0\" = \"n 0\" -> nodes[0].name: not a name of 1 to 100 letters, digits, '_', '-' and '.'
:65535 = :65536 -> nodes[0].address: not 127.0.0.1: and a port from 1 to 65535
\"f\" = 1 -> nodes[0].folder: not a text
[\"a.seg\"] = [\"a.seg\",1] -> nodes[0].loads: not a list of texts
\"nodes\":[ = \"nodes\":[{}, -> nodes[0].name: not a name of 1 to 100 letters, digits, '_', '-' and '.'
\"nodes\":[ = \"nodes\":[{\"name\":\"n9\"},{}, -> nodes[0].address: not 127.0.0.1: and a port from 1 to 65535
\"nodes\":[ = \"nodes\":[{\"name\":\"n9\",\"address\":\"127.0.0.1:1\"}, -> nodes[0].folder: not a text
\"nodes\":[ = \"nodes\":[{\"name\":\"n9\",\"address\":\"127.0.0.1:1\",\"folder\":\"f\"}, -> nodes[0].loads: not a list of texts
\"name\":\"n0\" = \"name\":\"n0\",\"tombstones\":[{\"dataSource\":\"w\",\"interval\":\"2024-01-01/2024-01-02\",\"version\":\"v\"},{}] -> nodes[0].tombstones: not a list of objects with dataSource, interval and version
\"workers\":1} = \"workers\":0} -> nodes[0].workers: not a number from 1 to 16
\"brokers\" = \"broker\" -> brokers: not a list
[{\"address\":\"127.0.0.1:9001\",\"workers\":16}] = [] -> brokers: not 1 to 64 of them
[{\"address\" = [{\"addres\" -> brokers[0].address: not 127.0.0.1: and a port from 1 to 65535
\"workers\":16} = \"workers\":17} -> brokers[0].workers: not a number from 1 to 16
\"workers\":16} = \"workers\":16},{} -> brokers[1].address: not 127.0.0.1: and a port from 1 to 65535
\"queries\" = \"query\" -> queries: not a list
\"broker\":0 = \"broker\":1 -> queries[0].broker: not the place of a broker, which count from 0
{\"broker\":0,\"query\":{}} = {\"broker\":0,\"query\":{}},{\"broker\":0} -> queries[1].query: not an object
\"kept\" = \"kept\" -> ";
    for row in rows.lines() {
        assert_field(&rt, rt.alloc(), row);
    }
}

#[test]
fn fields_of_rests(rt: HostRuntime) {
    let rows =
        "\"turns\":1000000 = \"turns\":1000000,\"every\":0 -> every: not a number from 1 to 3600000
\"connections\":0 = \"every\":3600001 -> every: not a number from 1 to 3600000
\"connections\":0 = \"connections\":-1,\"every\":5 -> connections: not a number from 0 to 1000000
\"connections\":0 = \"connection\":0 -> connections: not a number from 0 to 1000000
\"turns\":1000000 = \"turns\":-1,\"every\":0 -> turns: not a number from 0 to 1000000
\"nodes\" = \"every\":0,\"node\" -> every: not a number from 1 to 3600000
\"workers\":1} = \"workers\":1,\"watch\":0} -> nodes[0].watch: not a number from 1 to 3600000
\"workers\":1} = \"workers\":0,\"watch\":0} -> nodes[0].workers: not a number from 1 to 16
\"connections\":0 = \"every\":5 -> ";
    for row in rows.lines() {
        assert_field(&rt, rt.alloc(), row);
    }
}

#[test]
fn fields_of_statuses(rt: HostRuntime) {
    let rows =
        "\"turns\":1000000 = \"turns\":1000000,\"patience\":0 -> patience: not a number from 1 to 3600000
\"turns\":1000000 = \"turns\":1000000,\"patience\":0,\"every\":0 -> every: not a number from 1 to 3600000
\"nodes\" = \"patience\":\"a\",\"node\" -> patience: not a number from 1 to 3600000
\"workers\":1} = \"workers\":1,\"status\":\"127.0.0.1:0\"} -> nodes[0].status: not 127.0.0.1: and a port from 1 to 65535
\"workers\":1} = \"workers\":1,\"watch\":0,\"status\":0} -> nodes[0].watch: not a number from 1 to 3600000
\"workers\":16} = \"workers\":16,\"status\":null} -> brokers[0].status: not 127.0.0.1: and a port from 1 to 65535
\"workers\":16} = \"workers\":17,\"status\":null} -> brokers[0].workers: not a number from 1 to 16
\"workers\":1} = \"workers\":1,\"front\":257} -> nodes[0].front: not a number from 0 to 256
\"workers\":1} = \"workers\":1,\"front\":257,\"status\":0} -> nodes[0].status: not 127.0.0.1: and a port from 1 to 65535
\"workers\":1} = \"workers\":1,\"threads\":17} -> nodes[0].threads: not a number from 1 to 16
\"workers\":1} = \"workers\":1,\"threads\":0,\"front\":257} -> nodes[0].front: not a number from 0 to 256
\"workers\":16} = \"workers\":16,\"front\":null} -> brokers[0].front: not a number from 0 to 256
\"workers\":16} = \"workers\":16,\"front\":-1,\"status\":0} -> brokers[0].status: not 127.0.0.1: and a port from 1 to 65535
\"kept\" = \"patience\":30000,\"kept\" -> ";
    for row in rows.lines() {
        assert_field(&rt, rt.alloc(), row);
    }
}

#[test]
fn fields_of_a_network(rt: HostRuntime) {
    let rows = "\"turns\":1000000 = \"turns\":1000000,\"network\":1 -> network: not true or false
\"nodes\" = \"network\":\"yes\",\"node\" -> network: not true or false
\"turns\":1000000 = \"turns\":1000000,\"network\":1,\"patience\":0 -> patience: not a number from 1 to 3600000
127.0.0.1:65535 = 10.0.0.5:80 -> nodes[0].address: not 127.0.0.1: and a port from 1 to 65535
127.0.0.1:9001 = 10.0.0.5:80 -> brokers[0].address: not 127.0.0.1: and a port from 1 to 65535
\"workers\":1} = \"workers\":1,\"listen\":\"0.0.0.0:1\"} -> nodes[0].listen: not 127.0.0.1: and a port from 1 to 65535
\"workers\":16} = \"workers\":16,\"listen\":\"0.0.0.0:1\"} -> brokers[0].listen: not 127.0.0.1: and a port from 1 to 65535
\"workers\":1} = \"workers\":1,\"listen\":null,\"front\":257} -> nodes[0].front: not a number from 0 to 256
\"workers\":1} = \"workers\":1,\"listen\":null,\"threads\":17} -> nodes[0].listen: not 127.0.0.1: and a port from 1 to 65535
\"workers\":16} = \"workers\":16,\"listen\":\"\",\"front\":257} -> brokers[0].front: not a number from 0 to 256
\"workers\":1} = \"workers\":1,\"listen\":\"127.0.0.1:1\"} -> 
\"workers\":16} = \"workers\":16,\"listen\":\"127.0.0.1:1\"} -> ";
    for row in rows.lines() {
        assert_field(&rt, rt.alloc(), row);
    }
    let rows =
        "127.0.0.1:65535 = 10.0.0.256:80 -> nodes[0].address: not an IPv4 address, a colon and a port from 1 to 65535
127.0.0.1:9001 = localhost:9001 -> brokers[0].address: not an IPv4 address, a colon and a port from 1 to 65535
\"workers\":1} = \"workers\":1,\"status\":\"10.0.0.5\"} -> nodes[0].status: not an IPv4 address, a colon and a port from 1 to 65535
\"workers\":16} = \"workers\":16,\"status\":8083} -> brokers[0].status: not an IPv4 address, a colon and a port from 1 to 65535
\"workers\":1} = \"workers\":1,\"listen\":\"[::]:80\"} -> nodes[0].listen: not an IPv4 address, a colon and a port from 1 to 65535
\"workers\":16} = \"workers\":16,\"listen\":\"*:80\"} -> brokers[0].listen: not an IPv4 address, a colon and a port from 1 to 65535
\"workers\":16} = \"workers\":16,\"listen\":\"0.0.0.0:80\"} -> ";
    for row in rows.lines() {
        assert_network_field(&rt, rt.alloc(), row);
    }
}

// The same of a config of a network.
fn assert_network_field(rt: &impl Abort, alloc: Global, row: &str) {
    let (from, rest) = halves(rt, row, " = ");
    let (to, wanted) = halves(rt, rest, " -> ");
    let text = changed(rt, alloc, from, to);
    let (_, rest) = halves(rt, text.as_str(), "{");
    let text = format!(in alloc; "{{\"network\":true,{rest}").expect(rt, "memory");
    let reported = field_of(rt, alloc, text.as_str());
    assert!(rt; reported.as_str() == wanted, "{row}: {reported}");
}

#[test]
fn nodes(rt: HostRuntime) {
    let reported = field_of(&rt, rt.alloc(), with_doubled(&rt, rt.alloc()).as_str());
    assert!(rt;
        reported.as_str() == "nodes[0].name: a later node has it too",
        "{reported}"
    );
    let none = "{\"connections\":0,\"kept\":1,\"turns\":0,\"nodes\":[]}";
    let reported = field_of(&rt, rt.alloc(), none);
    assert!(rt;
        reported.as_str() == "nodes: not 1 to 64 of them",
        "{reported}"
    );
}

// What is reported of a config: its status, a line feed, and what was written to the error writer.
fn report_of<R: Host + Net<Listener = TcpListener, Stream = TcpStream>>(
    rt: &R,
    alloc: Global,
    config: &str,
    explain: bool,
) -> String {
    let (mut out, mut errors) = (Vec::new(alloc), Vec::new(alloc));
    let bytes = config.as_bytes();
    let environment = environment(rt, alloc, explain);
    let ending = serve_config(rt, alloc, bytes, &environment, &mut out, &mut errors);
    assert!(rt; ending.reported.is_ok());
    let status = ending.status;
    let reported = str::from_utf8(&errors).expect(rt, "a text");
    format!(in alloc; "{status}\n{reported}").expect(rt, "memory")
}

#[test]
fn configs(rt: HostRuntime) {
    let reported = report_of(&rt, rt.alloc(), "{}", true);
    let wanted = "1\nbad config\n  connections: not a number from 0 to 1000000\n";
    assert!(&rt; reported.as_str() == wanted, "{reported}");
    let reported = report_of(&rt, rt.alloc(), "{}", false);
    assert!(&rt; reported.as_str() == "1\nbad config\n", "{reported}");
}

// A text in which words stand for what is of the place alone.
fn placeless(rt: &impl Abort, alloc: Global, place: &Place, text: String) -> String {
    let text = text.replace(alloc, place.older.as_str(), "OLDER");
    let text = text.expect(rt, "memory");
    let text = text.replace(alloc, place.newer.as_str(), "NEWER");
    let text = text.expect(rt, "memory");
    let text = text.replace(alloc, place.first.as_str(), "FIRST");
    let text = text.expect(rt, "memory");
    let text = text.replace(alloc, place.broker.as_str(), "BROKER");
    text.expect(rt, "memory")
}

// What is reported of the config of a place.
fn reported_at<R: Host + Net<Listener = TcpListener, Stream = TcpStream>>(
    rt: &R,
    alloc: Global,
    place: &Place,
) -> String {
    let config = config(rt, alloc, place, 0);
    let text = report_of(rt, alloc, config.as_str(), true);
    placeless(rt, alloc, place, text)
}

// Asserts what is reported of a place, once a file of a row has the row's bytes: the file is the first node's where its name
// begins with a slash.
fn assert_file<R: Host + Net<Listener = TcpListener, Stream = TcpStream>>(
    rt: &R,
    alloc: Global,
    row: &str,
) {
    let (file, wanted) = halves(rt, row, " -> ");
    let (name, text) = halves(rt, file, " = ");
    let place = place_of(rt, alloc, "explained");
    match name.strip_prefix('/') {
        Some(name) => put(rt, alloc, place.older.as_str(), name, text.as_bytes()),
        None => put(rt, alloc, place.newer.as_str(), name, text.as_bytes()),
    }
    let reported = reported_at(rt, alloc, &place);
    clear(rt, &place);
    let wanted = format!(in alloc; "1\nbad folder\n  {wanted}\n").expect(rt, "memory");
    assert!(rt; reported.as_str() == wanted.as_str(), "{row}: {reported}");
}

#[test]
fn files(rt: HostRuntime) {
    let rows = "z.seg = no segment -> nodes[1].folder: NEWER/z.seg: N2: F1: not a segment file
z.seg = DSG1 -> nodes[1].folder: NEWER/z.seg: N2: F2: a cut file
/incarnation = x -> nodes[0].folder: OLDER/incarnation: O2: a bad incarnation number";
    for row in rows.lines() {
        assert_file(&rt, rt.alloc(), row);
    }
}

// A line feed in a name is a space in the line.
#[test]
fn file_of_two_lines(rt: HostRuntime) {
    let place = place_of(&rt, rt.alloc(), "lines");
    put(
        &rt,
        rt.alloc(),
        place.older.as_str(),
        "a\nb.seg",
        b"no segment",
    );
    let reported = reported_at(&rt, rt.alloc(), &place);
    clear(&rt, &place);
    assert!(rt;
        reported.as_str()
            == "1\nbad folder\n  nodes[0].folder: OLDER/a b.seg: N2: F1: not a segment file\n",
        "{reported}"
    );
}

// Asserts that a device failed, and what is said of it.
fn assert_device(rt: &impl Abort, alloc: Global, reported: String, wanted: &str) {
    let wanted = format!(in alloc; "3\ndevice\n  {wanted}\n").expect(rt, "memory");
    assert!(rt; reported.as_str() == wanted.as_str(), "{reported}");
}

// A port of a node that is taken, one of a broker, and a folder that is not there.
#[test]
fn devices(rt: HostRuntime) {
    let alloc = rt.alloc();
    let place = place_of(&rt, alloc, "taken");
    let taken = TcpListener::bind(&rt, place.broker.as_str()).expect(&rt, "a listener");
    let reported = reported_at(&rt, alloc, &place);
    assert_device(
        &rt,
        alloc,
        reported,
        "brokers[0].address: listening on BROKER",
    );
    drop(taken);
    clear(&rt, &place);
    let place = place_of(&rt, alloc, "held");
    let _taken = TcpListener::bind(&rt, place.first.as_str()).expect(&rt, "a listener");
    let reported = reported_at(&rt, alloc, &place);
    assert_device(&rt, alloc, reported, "nodes[0].address: listening on FIRST");
    clear(&rt, &place);
    let reported = reported_at(&rt, alloc, &place);
    assert_device(
        &rt,
        alloc,
        reported,
        "nodes[0].folder: OLDER/incarnation: O1: the device failed",
    );
}

#[test]
fn outputs(rt: HostRuntime) {
    let place = place_of(&rt, rt.alloc(), "outputs");
    let config = config(&rt, rt.alloc(), &place, 0);
    let (mut out, mut errors) = (Full { takes: false }, Vec::new(rt.alloc()));
    let bytes = config.as_bytes();
    let environment = environment(&rt, rt.alloc(), true);
    let ending = serve_config(&rt, rt.alloc(), bytes, &environment, &mut out, &mut errors);
    clear(&rt, &place);
    let wanted = b"device\n  standard output: a write failed\n".as_slice();
    assert!(rt; ending.status == 3 && errors.as_slice() == wanted);
}

// A config that is not there.
#[test]
fn paths(rt: HostRuntime) {
    let alloc = rt.alloc();
    let mut words = Vec::new(alloc);
    for word in ["serve", "no folder/none"] {
        let word = String::from_str(alloc, word).expect(&rt, "memory");
        words.push(word).expect(&rt, "memory");
    }
    let (mut out, mut errors) = (Vec::new(alloc), Vec::new(alloc));
    let mut input = b"".as_slice();
    let ending = run(
        &rt,
        alloc,
        Ok(words),
        &environment(&rt, alloc, true),
        &mut input,
        &mut out,
        &mut errors,
    );
    let wanted = b"device\n  no folder/none: not read\n".as_slice();
    assert!(&rt; ending.status == 3 && errors.as_slice() == wanted);
}
