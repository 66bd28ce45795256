//! Starts whose files are decoded on several threads: they load what one thread loads, in the order of the names, and end at the first
//! file that is refused.
use crate::folders::{LATER_FILE, LONG_FILE, file_bytes, fresh_folder, long_bytes, put, put_parts};
use crate::host::{Host, free_address, quiet_log};
use druid_link::{Link, TcpLink};
use druid_serve_base::{Cause, StartFault};
use druid_serve_config::{Config, read_config};
use druid_serve_node::{Loading, start_node};
use std::alloc::Global;
use std::marker::Brand;
use std::net::{Net, TcpListener, TcpStream};
use std::process::Abort;
use std::{fs, str};

// On how many threads the files are decoded.
const THREADS: [u8; 4] = [1, 2, 3, 16];

// A config of one node of a folder.
fn config(rt: &impl Abort, alloc: Global, address: &str, folder: &str, threads: u8) -> Config {
    let text = format!(in alloc;
        "{{\"brokers\":[{{\"address\":\"127.0.0.1:1\",\"workers\":1}}],\"connections\":0,\"kept\":1000,\"nodes\":[{{\"address\":\"{address}\",\"folder\":\"{folder}\",\"loads\":[],\"name\":\"n0\",\"threads\":{threads},\"workers\":1}}],\"queries\":[],\"turns\":1}}"
    ).expect(rt, "memory");
    read_config(alloc, text.as_bytes()).expect(rt, "a config")
}

// Starts a node over a folder.
fn start<R: Host + Net<Listener = TcpListener, Stream = TcpStream>>(
    rt: &R,
    alloc: Global,
    address: &str,
    folder: &str,
    threads: u8,
) -> Result<Loading, StartFault> {
    let config = config(rt, alloc, address, folder, threads);
    let node = config.nodes().first().expect(rt, "a node");
    start_node::<R, Brand, Brand>(rt, alloc, node, 1000, &quiet_log(rt, alloc))
}

// A folder of seven small files, one of a later day, and after these a large one.
fn folder_of_files<R: Host>(rt: &R, alloc: Global) -> String {
    let folder = fresh_folder(rt, alloc, "druid_serve_started");
    put_parts(rt, alloc, folder.as_str(), 7);
    let later = file_bytes(rt, alloc, LATER_FILE);
    put(rt, alloc, folder.as_str(), LATER_FILE, &later);
    let long = long_bytes(rt, alloc);
    put(rt, alloc, folder.as_str(), LONG_FILE, &long);
    folder
}

// The loads of a node that started over these files, one after another: the start of each one's interval and its partition.
fn loads_of<R: Host + Net<Listener = TcpListener, Stream = TcpStream>>(
    rt: &R,
    alloc: Global,
    threads: u8,
) -> String {
    let folder = folder_of_files(rt, alloc);
    let address = free_address(rt, alloc);
    let started = start(rt, alloc, address.as_str(), folder.as_str(), threads);
    started.ok().expect(rt, "a node that starts").join(rt);
    fs::remove_dir_all(rt, folder.as_str()).expect(rt, "a folder");
    let mut link = TcpLink::new(*rt, address);
    let ask = b"GET /druid-internal/v1/segments?counter=0&hash=1 HTTP/1.1\r\n\r\n";
    let answer = link.exchange(alloc, ask).expect(rt, "an answer");
    let answer = str::from_utf8(&answer).expect(rt, "a text");
    let mut loads = String::new(alloc);
    for load in answer.split("\"interval\":\"2024-").skip(1) {
        let (day, rest) = load.split_once("T").expect(rt, "a day");
        let (_, rest) = rest
            .split_once("\"partitionNum\":")
            .expect(rt, "a partition");
        let (partition, _) = rest.split_once(",").expect(rt, "a number");
        let text = format!(in alloc; " {day} {partition}").expect(rt, "memory");
        loads.push_str(text.as_str()).expect(rt, "memory");
    }
    loads
}

// The files in the order of their names.
const LOADS: &str = " 01-01 0 01-01 1 01-01 2 01-01 3 01-01 4 01-01 5 01-01 6 01-02 0 02-01 0";

#[test]
fn loads_in_order_of_names(rt: HostRuntime) {
    for threads in THREADS {
        let loads = loads_of(&rt, rt.alloc(), threads);
        assert!(rt; loads.as_str() == LOADS, "{threads}: {loads}");
    }
}

// The names of two files that are refused.
const REFUSED: [&str; 2] = [
    "wiki_2024-01-01T00:00:00.000Z_2024-01-02T00:00:00.000Z_v1_3.seg",
    "wiki_2024-01-01T00:00:00.000Z_2024-01-02T00:00:00.000Z_v1_5.seg",
];

// The file that ends a start over files of which two are refused.
fn refused_file<R: Host + Net<Listener = TcpListener, Stream = TcpStream>>(
    rt: &R,
    alloc: Global,
    threads: u8,
) -> Option<String> {
    let folder = folder_of_files(rt, alloc);
    for name in REFUSED {
        put(rt, alloc, folder.as_str(), name, b"DSG");
    }
    let address = free_address(rt, alloc);
    let started = start(rt, alloc, address.as_str(), folder.as_str(), threads);
    fs::remove_dir_all(rt, folder.as_str()).expect(rt, "a folder");
    match started.err()?.cause? {
        Cause::File(file, _) => Some(file),
        _ => None,
    }
}

#[test]
fn first_refused_file_ends_a_start(rt: HostRuntime) {
    for threads in THREADS {
        let file = refused_file(&rt, rt.alloc(), threads).expect(&rt, "a file");
        assert!(rt; file.as_str() == REFUSED[0], "{threads}: {file}");
    }
}
