//! A cluster of as many nodes as a config may have.
use crate::folders::{fresh_folder, put_part};
use crate::host::{Host, address_of, listener};
use crate::serve::{QUERY, served};
use std::alloc::Global;
use std::fs;
use std::net::{Net, TcpListener, TcpStream};
use std::process::Abort;

const NODES: u16 = 64;

// The nodes of a config, and their folders.
#[derive(Drop)]
struct Nodes {
    text: String,
    folders: Vec<String>,
}

// Adds a node at an address, over a folder with the part of its number.
fn add<R: Host>(rt: &R, alloc: Global, nodes: &mut Nodes, number: u16, address: &str) {
    let folder = fresh_folder(rt, alloc, "druid_serve_many");
    put_part(rt, alloc, folder.as_str(), number);
    let comma = if number == 0 { "" } else { "," };
    let node = format!(in alloc;
        "{comma}{{\"address\":\"{address}\",\"folder\":\"{folder}\",\"loads\":[],\"name\":\"n{number}\",\"workers\":1}}"
    ).expect(rt, "memory");
    nodes.text.push_str(node.as_str()).expect(rt, "memory");
    nodes.folders.push(folder).expect(rt, "memory");
}

// Each node has the part of its number, of one row: the broker asks each of them for its own.
#[test]
fn sixty_four_nodes(rt: HostRuntime) {
    let alloc = rt.alloc();
    let mut nodes = Nodes {
        text: String::new(alloc),
        folders: Vec::new(alloc),
    };
    let (broker, mut others) = (listener(&rt), Vec::new(alloc));
    for number in 0..NODES {
        let other = listener(&rt);
        let address = address_of(&rt, alloc, &other);
        add(&rt, alloc, &mut nodes, number, address.as_str());
        others.push(other).expect(&rt, "memory");
    }
    let (address, text) = (address_of(&rt, alloc, &broker), &nodes.text);
    drop((broker, others));
    let config = format!(in alloc;
        "{{\"brokers\":[{{\"address\":\"{address}\",\"workers\":1}}],\"connections\":0,\"kept\":1,\"nodes\":[{text}],\"queries\":[{{\"broker\":0,\"query\":{QUERY}}}],\"turns\":1}}"
    ).expect(&rt, "memory");
    let reported = served(&rt, alloc, config.as_str());
    let wanted = "0\n200\n[{\"result\":{\"n\":64},\"timestamp\":\"2024-01-01T00:00:00.000Z\"}]\n";
    assert!(&rt; reported.as_str() == wanted, "{reported}");
    for folder in &nodes.folders {
        fs::remove_dir_all(&rt, folder.as_str()).expect(&rt, "a folder");
    }
}
