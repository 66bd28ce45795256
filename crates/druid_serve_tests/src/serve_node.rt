//! Nodes that are started over folders of many files, and from incarnations of each length.
ghost use Rattle.std.specs.Prelude.{◌≤◌};

use crate::folders::{LATER_FILE, OLDER_FILE, file_bytes, fresh_folder, put, put_parts};
use crate::host::{Host, free_address, quiet_log};
use druid_link::{Link, TcpLink};
use druid_serve_config::{Config, read_config};
use druid_serve_node::{start_node, start_owner};
use std::alloc::Global;
use std::io::{Read, Write};
use std::marker::Brand;
use std::net::{Net, TcpListener, TcpStream};
use std::path::Path;
use std::process::Abort;
use std::time::Duration;
use std::{fs, str, thread};

// The names of so many files that are not there, as JSON.
fn absent_files(rt: &impl Abort, alloc: Global, count: usize) -> String {
    let mut names = String::new(alloc);
    for number in 0..count {
        let comma = if number == 0 { "" } else { "," };
        let name = format!(in alloc; "{comma}\"none_{number}.seg\"").expect(rt, "memory");
        names.push_str(name.as_str()).expect(rt, "memory");
    }
    names
}

// A config of one node of a folder and with these tombstones, which loads so many files later, with so many workers.
fn config(
    rt: &impl Abort,
    alloc: Global,
    address: &str,
    folder: &str,
    tombstones: &str,
    loads: usize,
    workers: u8,
) -> Config {
    let names = absent_files(rt, alloc, loads);
    let text = format!(in alloc;
        "{{\"brokers\":[{{\"address\":\"127.0.0.1:1\",\"workers\":1}}],\"connections\":0,\"kept\":1,\"nodes\":[{{\"address\":\"{address}\",\"folder\":\"{folder}\",\"loads\":[{names}],\"name\":\"n0\",\"tombstones\":[{tombstones}],\"workers\":{workers}}}],\"queries\":[],\"turns\":1}}"
    ).expect(rt, "memory");
    read_config(alloc, text.as_bytes()).expect(rt, "a config")
}

// What a node at an address tells of its segments.
fn segments_at<R: Host + Net<Listener = TcpListener, Stream = TcpStream>>(
    rt: &R,
    alloc: Global,
    address: &str,
) -> String {
    let address = String::from_str(alloc, address).expect(rt, "memory");
    let mut link = TcpLink::new(*rt, address);
    let answer = link
        .exchange(alloc, b"GET /druid-internal/v1/segments HTTP/1.1\r\n\r\n")
        .expect(rt, "an answer");
    String::from_str(alloc, str::from_utf8(&answer).expect(rt, "a text")).expect(rt, "memory")
}

// What a node that is started over a folder, with these tombstones, tells of its segments, once it has tried the files that it
// loads later.
fn reported_over<R: Host + Net<Listener = TcpListener, Stream = TcpStream>>(
    rt: &R,
    alloc: Global,
    folder: &str,
    tombstones: &str,
    loads: usize,
    workers: u8,
    kept: usize,
) -> String
    requires some { 1 ≤ kept }
    requires few { kept ≤ 1000 }
{
    let address = free_address(rt, alloc);
    let config = config(
        rt,
        alloc,
        address.as_str(),
        folder,
        tombstones,
        loads,
        workers,
    );
    let node = config.nodes().first().expect(rt, "a node");
    let log = quiet_log(rt, alloc);
    let loader = start_node::<R, Brand, Brand>(rt, alloc, node, kept, &log).expect(
        rt,
        "a node that starts",
    );
    loader.join(rt);
    segments_at(rt, alloc, address.as_str())
}

// Whether a node is at that mark, and serves as many segments.
fn is_at(rt: &impl Abort, alloc: Global, reported: &str, count: usize, incarnation: &str) -> bool {
    let mark = format!(in alloc;
        "\r\n\r\n{{\"counter\":{{\"counter\":{count},\"hash\":{incarnation}}},"
    ).expect(rt, "memory");
    reported.contains(mark.as_str())
        && reported.split("\"action\":\"load\"").count() == count.saturating_add(1)
}

// Asserts that a node starts over a folder of so many segments, and serves them.
fn assert_starts<R: Host + Net<Listener = TcpListener, Stream = TcpStream>>(
    rt: &R,
    alloc: Global,
    count: u16,
    workers: u8,
    kept: usize,
)
    requires some { 1 ≤ kept }
    requires few { kept ≤ 1000 }
{
    let folder = fresh_folder(rt, alloc, "druid_serve_node");
    put_parts(rt, alloc, folder.as_str(), count);
    let reported = reported_over(
        rt,
        alloc,
        folder.as_str(),
        "",
        count as usize,
        workers,
        kept,
    );
    assert!(rt;
        is_at(rt, alloc, reported.as_str(), count as usize, "1"),
        "{count}: {reported}"
    );
    fs::remove_dir_all(rt, folder.as_str()).expect(rt, "a folder");
}

#[test]
fn nodes_of_many_files(rt: HostRuntime) {
    for count in [0u16, 1, 2, 3, 5, 17, 65] {
        assert_starts(&rt, rt.alloc(), count, 1, 1000);
    }
    assert_starts(&rt, rt.alloc(), 3, 16, 1);
}

// Asserts that a node starts with the second of two incarnations, where its folder had the first.
fn assert_raised<R: Host + Net<Listener = TcpListener, Stream = TcpStream>>(
    rt: &R,
    alloc: Global,
    row: &str,
) {
    let (before, after) = row.split_once(" = ").expect(rt, "no row");
    let folder = fresh_folder(rt, alloc, "druid_serve_incarnation");
    let text = format!(in alloc; "{before}\n").expect(rt, "memory");
    put(rt, alloc, folder.as_str(), "incarnation", text.as_bytes());
    let reported = reported_over(rt, alloc, folder.as_str(), "", 0, 1, 10);
    assert!(rt;
        is_at(rt, alloc, reported.as_str(), 0, after),
        "{row}: {reported}"
    );
    fs::remove_dir_all(rt, folder.as_str()).expect(rt, "a folder");
}

#[test]
fn many_starts(rt: HostRuntime) {
    let rows = "1 = 2
9 = 10
998 = 999
999 = 1000
1000 = 1001
9999 = 10000
1000000000000000000 = 1000000000000000001
18446744073709551614 = 18446744073709551615";
    for row in rows.lines() {
        assert_raised(&rt, rt.alloc(), row);
    }
}

// The tombstones of the first part of the day, which is served already, and of a day without segments, twice.
const TOMBSTONES: &str =
    "{\"dataSource\":\"wiki\",\"interval\":\"2024-01-01/2024-01-02\",\"version\":\"v1\"},{\"dataSource\":\"wiki\",\"interval\":\"2024-01-02/2024-01-03\",\"version\":\"v1\"},{\"dataSource\":\"wiki\",\"interval\":\"2024-01-02/2024-01-03\",\"version\":\"v1\"}";

// A node places the tombstones of its config after its files, and passes over those of what is served already.
fn assert_placed<R: Host + Net<Listener = TcpListener, Stream = TcpStream>>(rt: &R, alloc: Global) {
    let folder = fresh_folder(rt, alloc, "druid_serve_tombstones");
    put_parts(rt, alloc, folder.as_str(), 2);
    let reported = reported_over(rt, alloc, folder.as_str(), TOMBSTONES, 0, 1, 10);
    assert!(rt; is_at(rt, alloc, reported.as_str(), 3, "1"), "{reported}");
    assert!(rt;
        reported.split("\"tombstone\":true").count() == 2,
        "{reported}"
    );
    fs::remove_dir_all(rt, folder.as_str()).expect(rt, "a folder");
}

#[test]
fn tombstones_of_a_config(rt: HostRuntime) {
    assert_placed(&rt, rt.alloc());
}

// A config of one node that looks at its folder each five milliseconds.
fn watching_config(rt: &impl Abort, alloc: Global, address: &str, folder: &str) -> Config {
    let text = format!(in alloc;
        "{{\"brokers\":[{{\"address\":\"127.0.0.1:1\",\"workers\":1}}],\"connections\":0,\"kept\":10,\"nodes\":[{{\"address\":\"{address}\",\"folder\":\"{folder}\",\"loads\":[],\"name\":\"n0\",\"watch\":5,\"workers\":1}}],\"queries\":[],\"turns\":1}}"
    ).expect(rt, "memory");
    read_config(alloc, text.as_bytes()).expect(rt, "a config")
}

// Whether a node comes to that mark, and serves as many segments, within some seconds.
fn comes_to<R: Host + Net<Listener = TcpListener, Stream = TcpStream>>(
    rt: &R,
    alloc: Global,
    address: &str,
    count: usize,
    served: usize,
) -> bool {
    let mark = format!(in alloc; "{{\"counter\":{count},\"hash\":1}}").expect(rt, "memory");
    for _ in 0..1_000_u16 {
        let reported = segments_at(rt, alloc, address);
        if reported.contains(mark.as_str()) {
            return reported.split("\"action\":\"load\"").count() == served.saturating_add(1);
        }
        thread::sleep(rt, Duration::from_millis(5));
    }
    false
}

// A file of the folder has another name.
fn rename<R: Host>(rt: &R, alloc: Global, folder: &str, from: &str, to: &str) {
    let from = Path::new(folder).join(alloc, from).expect(rt, "memory");
    let to = Path::new(folder).join(alloc, to).expect(rt, "memory");
    fs::rename(rt, from.as_path(), to.as_path()).expect(rt, "a file");
}

// Of a node that watches its folder: a file that comes by a rename is served, and dropped once it is away, as is one that was
// there at the start.
fn assert_watched<R: Host + Net<Listener = TcpListener, Stream = TcpStream>>(
    rt: &R,
    alloc: Global,
) {
    let folder = fresh_folder(rt, alloc, "druid_serve_watch");
    put_parts(rt, alloc, folder.as_str(), 1);
    let address = free_address(rt, alloc);
    let config = watching_config(rt, alloc, address.as_str(), folder.as_str());
    let node = config.nodes().first().expect(rt, "a node");
    let log = quiet_log(rt, alloc);
    let loader = start_node::<R, Brand, Brand>(rt, alloc, node, 10, &log).expect(
        rt,
        "a node that starts",
    );
    loader.join(rt);
    let bytes = file_bytes(rt, alloc, LATER_FILE);
    put(rt, alloc, folder.as_str(), "new", &bytes);
    rename(rt, alloc, folder.as_str(), "new", LATER_FILE);
    assert!(rt; comes_to(rt, alloc, address.as_str(), 2, 2));
    rename(rt, alloc, folder.as_str(), LATER_FILE, "old");
    assert!(rt; comes_to(rt, alloc, address.as_str(), 3, 1));
    rename(rt, alloc, folder.as_str(), OLDER_FILE, "older");
    assert!(rt; comes_to(rt, alloc, address.as_str(), 4, 0));
    fs::remove_dir_all(rt, folder.as_str()).expect(rt, "a folder");
}

#[test]
fn watched_folder(rt: HostRuntime) {
    assert_watched(&rt, rt.alloc());
}

// Of two starts over one config the second is refused its address, and of two over one folder at other addresses the second is refused
// the folder: neither raises the incarnation. Once the first has ended, another has the folder. A start that listens last raises the
// incarnation all the same.
fn assert_owned<R: Host + Net<Listener = TcpListener, Stream = TcpStream>>(rt: &R, alloc: Global) {
    let folder = fresh_folder(rt, alloc, "druid_serve_owned");
    let address = free_address(rt, alloc);
    let one = config(rt, alloc, address.as_str(), folder.as_str(), "", 0, 1);
    let node = one.nodes().first().expect(rt, "a node");
    let log = quiet_log(rt, alloc);
    let first = start_owner::<R, Brand, Brand>(rt, alloc, node, 10, &log).expect(
        rt,
        "a node that starts",
    );
    let first = first.join(rt);
    let other = free_address(rt, alloc);
    let two = config(rt, alloc, other.as_str(), folder.as_str(), "", 0, 1);
    let second = two.nodes().first().expect(rt, "a node");
    assert!(rt; start_owner::<R, Brand, Brand>(rt, alloc, node, 10, &log).is_err());
    assert!(rt; start_owner::<R, Brand, Brand>(rt, alloc, second, 10, &log).is_err());
    assert!(rt; incarnation(rt, alloc, folder.as_str()).as_slice() == b"1\n".as_slice());
    drop(first);
    assert!(rt; start_owner::<R, Brand, Brand>(rt, alloc, second, 10, &log).is_ok());
    assert!(rt; incarnation(rt, alloc, folder.as_str()).as_slice() == b"2\n".as_slice());
    assert!(rt; start_node::<R, Brand, Brand>(rt, alloc, node, 10, &log).is_err());
    assert!(rt; incarnation(rt, alloc, folder.as_str()).as_slice() == b"3\n".as_slice());
    fs::remove_dir_all(rt, folder.as_str()).expect(rt, "a folder");
}

// The bytes of a folder's file `incarnation`.
fn incarnation<R: Host>(rt: &R, alloc: Global, folder: &str) -> Vec<u8> {
    let path = Path::new(folder)
        .join(alloc, "incarnation")
        .expect(rt, "memory");
    let mut file = fs::File::open(rt, path.as_path()).expect(rt, "a file");
    let mut bytes = Vec::new(alloc);
    file.read_to_end(&mut bytes).expect(rt, "bytes");
    bytes
}

#[test]
fn owned_folder(rt: HostRuntime) {
    assert_owned(&rt, rt.alloc());
}
