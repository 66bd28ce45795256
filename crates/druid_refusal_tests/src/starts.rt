//! Servers, started over a folder and sockets of this machine.
use crate::data::segment_with;
use crate::marks::{assert_call, begin, end};
use crate::nodes::FILE;
use crate::values::segment;
use druid_link::{Link, TcpLink};
use druid_segment_descriptor::Descriptor;
use druid_segment_file::write_segment;
use druid_serve::serve;
use druid_serve_base::{ClusterFault, ServeFault, StartFault};
use druid_serve_config::read_config;
use druid_serve_node::{Loading, start_node, start_owner};
use druid_telemetry_log::{Level, Log, open};
use std::alloc::Global;
use std::fs::File;
use std::marker::Brand;
use std::net::{Net, TcpListener, TcpStream};
use std::process::Abort;
use std::rt::{Env, Files};
use std::sync::{Arc, Wait};
use std::thread::Threads;
use std::time::Clock;
use std::{env, fs};

// A machine that servers start on, all but its sockets.
trait Host: Files<File = File, Dir: Send>
    + Env
    + AllocGlobal
    + Wait
    + Threads
    + Clock
    + Abort
    + Copy
    + Send
    + Sync
    + 'static {}

impl<
    R: Files<File = File, Dir: Send>
        + Env
        + AllocGlobal
        + Wait
        + Threads
        + Clock
        + Abort
        + Copy
        + Send
        + Sync
        + 'static,
> Host for R {}

// How many folders there may be: what runs that were ended left.
const MAX_LEFT: u64 = 1_000;

// A new folder.
fn fresh_folder<R: Host>(rt: &R, alloc: Global) -> String {
    let top = env::temp_dir(rt).expect(rt, "a folder");
    let top = top.as_str();
    for number in 0..MAX_LEFT {
        let path = format!(in alloc; "{top}/druid_refusal_{number}").expect(rt, "memory");
        if fs::create_dir(rt, path.as_str()).is_ok() {
            return path;
        }
    }
    panic!(rt; "no folder")
}

// Where the servers of a test are: over a folder with a segment file, at a port that no other test has while its listener stands.
#[derive(Drop)]
struct Place {
    folder: String,
    port: u16,
    listener: TcpListener,
}

// The bytes of the file of a segment that is whole by itself.
fn whole_bytes(rt: &impl Abort, alloc: Global) -> Vec<u8> {
    let id = segment(rt, alloc, "v1", 0);
    let descriptor = Descriptor::new(id, 1, 7).expect(rt, "a descriptor");
    let mut bytes = Vec::new(alloc);
    write_segment(alloc, &segment_with(rt, alloc, descriptor), &mut bytes).expect(rt, "a file");
    bytes
}

fn place_of<R: Host + Net<Listener = TcpListener, Stream = TcpStream>>(
    rt: &R,
    alloc: Global,
) -> Place {
    let listener = TcpListener::bind(rt, "127.0.0.1:0").expect(rt, "a listener");
    let port = listener.local_addr().expect(rt, "an address").port();
    let folder = fresh_folder(rt, alloc);
    let path = format!(in alloc; "{folder}/{FILE}").expect(rt, "memory");
    fs::write(rt, path.as_str(), &whole_bytes(rt, alloc)).expect(rt, "a file");
    Place {
        folder,
        port,
        listener,
    }
}

// A config of a node and a broker at addresses that end so.
fn config(rt: &impl Abort, alloc: Global, place: &Place, host: u8) -> String {
    let (folder, port) = (&place.folder, place.port);
    format!(in alloc;
        "{{\"brokers\":[{{\"address\":\"127.0.3.{host}:{port}\",\"front\":1,\"status\":\"127.0.4.{host}:{port}\",\"workers\":1}}],\"connections\":0,\"kept\":10,\"network\":true,\"nodes\":[{{\"address\":\"127.0.1.{host}:{port}\",\"folder\":\"{folder}\",\"front\":1,\"loads\":[],\"name\":\"n0\",\"status\":\"127.0.2.{host}:{port}\",\"tombstones\":[{{\"dataSource\":\"w\",\"interval\":\"2024-01-02/2024-01-03\",\"version\":\"v1\"}}],\"workers\":1}}],\"queries\":[{{\"broker\":0,\"query\":{{\"aggregations\":[{{\"name\":\"n\",\"type\":\"count\"}}],\"dataSource\":\"w\",\"granularity\":\"all\",\"intervals\":\"2024-01-01/2024-01-02\",\"queryType\":\"timeseries\"}}}}],\"turns\":1}}"
    ).expect(rt, "memory")
}

// A log of which nothing is written.
fn quiet_log(rt: &impl Abort, alloc: Global) -> Arc<Log, Global> {
    let (log, _lines) = open(alloc, Level::Off).expect(rt, "memory");
    Arc::new(alloc, log).expect(rt, "memory")
}

// Starts the node of a config, whose folder is its own or not, between marks where it is to be.
fn start<R: Host + Net<Listener = TcpListener, Stream = TcpStream>>(
    rt: &R,
    alloc: Global,
    config: &str,
    owns: bool,
    is_marked: bool,
) -> Result<Loading, StartFault> {
    let config = read_config(alloc, config.as_bytes()).expect(rt, "a config");
    let node = config.nodes().first().expect(rt, "a node");
    let log = quiet_log(rt, alloc);
    if is_marked {
        begin(rt, alloc);
    }
    let started = if owns {
        start_owner::<R, Brand, Brand>(rt, alloc, node, 10, &log)
    } else {
        start_node::<R, Brand, Brand>(rt, alloc, node, 10, &log)
    };
    if is_marked {
        end(rt, alloc, started)
    } else {
        started
    }
}

// Whether the node at an address that ends so answers.
fn answers<R: Host + Net<Listener = TcpListener, Stream = TcpStream>>(
    rt: &R,
    alloc: Global,
    place: &Place,
    host: u8,
) -> bool {
    let port = place.port;
    let address = format!(in alloc; "127.0.1.{host}:{port}").expect(rt, "memory");
    TcpLink::new(*rt, address)
        .exchange(alloc, b"GET /status/health HTTP/1.1\r\n\r\n")
        .is_ok()
}

// Whether a node started, and answers; or it was refused memory, and another starts over the same folder.
fn starts<R: Host + Net<Listener = TcpListener, Stream = TcpStream>>(
    rt: &R,
    alloc: Global,
    owns: bool,
) -> bool {
    let place = place_of(rt, alloc);
    let (first, second) = (config(rt, alloc, &place, 1), config(rt, alloc, &place, 2));
    let holds = match start(rt, alloc, first.as_str(), owns, true) {
        Ok(loading) => {
            loading.join(rt);
            answers(rt, alloc, &place, 1)
        }
        Err(refused) => {
            let other = start(rt, alloc, second.as_str(), owns, false);
            refused.fault == ClusterFault::Device && other.is_ok() && answers(rt, alloc, &place, 2)
        }
    };
    fs::remove_dir_all(rt, place.folder.as_str()).expect(rt, "a folder");
    holds
}

#[test]
fn of_starts(rt: HostRuntime) {
    assert_call(&rt, "start_node", starts(&rt, rt.alloc(), false));
    assert_call(&rt, "start_owner", starts(&rt, rt.alloc(), true));
}

// What the cluster of a config prints, which is served between marks where it is to be.
fn printed<R: Host + Net<Listener = TcpListener, Stream = TcpStream>>(
    rt: &R,
    alloc: Global,
    config: &str,
    is_marked: bool,
) -> Result<Vec<u8>, ServeFault> {
    let log = quiet_log(rt, alloc);
    let (mut out, mut errors) = (Vec::new(alloc), Vec::new(alloc));
    if is_marked {
        begin(rt, alloc);
    }
    let bytes = config.as_bytes();
    let served = serve(rt, alloc, bytes, None, &log, &mut out, &mut errors);
    if is_marked {
        end(rt, alloc, ());
    }
    match served {
        Ok(()) => Ok(out),
        Err(stop) => Err(stop.fault),
    }
}

// What is printed with ample memory: the segment has two rows.
const WHOLE: &[u8] = b"200\n[{\"result\":{\"n\":2},\"timestamp\":\"2024-01-01T00:00:00.000Z\"}]\n";

// Whether a cluster was served, and printed something of its query; or it was refused memory. Beside it another is served over the same
// folder.
fn serves<R: Host + Net<Listener = TcpListener, Stream = TcpStream>>(
    rt: &R,
    alloc: Global,
) -> bool {
    let place = place_of(rt, alloc);
    let (first, second) = (config(rt, alloc, &place, 1), config(rt, alloc, &place, 2));
    let holds = match printed(rt, alloc, first.as_str(), true) {
        Ok(text) => !text.is_empty(),
        Err(fault) => fault == ServeFault::Device,
    };
    let other = printed(rt, alloc, second.as_str(), false);
    fs::remove_dir_all(rt, place.folder.as_str()).expect(rt, "a folder");
    match other {
        Ok(text) => holds && text.as_slice() == WHOLE,
        Err(_) => false,
    }
}

#[test]
fn of_clusters(rt: HostRuntime) {
    assert_call(&rt, "serve", serves(&rt, rt.alloc()));
}
