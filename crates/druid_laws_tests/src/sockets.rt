//! A node that is fetched from over a socket of this machine.
use crate::fetch::fetch_over_socket;
use crate::two_nodes::{inventory, left};
use druid_http_wire::{read_request, write_response};
use druid_inventory::Inventory;
use druid_link::TcpLink;
use druid_node::NodeState;
use druid_segment_descriptor::{Body, Reply};
use std::alloc::Global;
use std::io::BufReader;
use std::net::{Net, TcpListener, TcpStream};
use std::process::Abort;
use std::thread::{Threads, join};
use std::time::Clock;

// Answers one connection as the node does, and says whether it did.
fn answers_once(alloc: Global, listener: &TcpListener, node: &mut NodeState) -> bool {
    let Ok((socket, _)) = listener.accept() else {
        return false;
    };
    let Ok(mut reader) = BufReader::new(alloc, &socket) else {
        return false;
    };
    let Ok(request) = read_request(alloc, &mut reader) else {
        return false;
    };
    let Ok(answer) = node.respond(&request) else {
        return false;
    };
    let mut writer = &socket;
    write_response(answer.0, &answer.1, &mut writer).is_ok()
}

// Whether it is a snapshot of one segment.
fn is_of_one(reply: &Reply) -> bool {
    match reply.body() {
        Body::Snapshot { segments, .. } => segments.as_slice().len() == 1,
        Body::Delta { .. } | Body::Page { .. } | Body::Reset { .. } => false,
    }
}

// Whether the node at an address gives a snapshot of one segment.
fn gives_one<N: Net + Clock + Drop>(
    net: N,
    alloc: Global,
    inventory: &Inventory,
    address: String,
) -> bool {
    if inventory.node_count() == 0 {
        return false;
    }
    let mut link = TcpLink::new(net, address);
    match fetch_over_socket(alloc, inventory, 0, &mut link) {
        Ok(reply) => is_of_one(&reply),
        Err(_) => false,
    }
}

fn address_of(rt: &impl Abort, alloc: Global, listener: &TcpListener) -> String {
    let address = listener.local_addr().expect(rt, "an address");
    format!(in alloc; "{address}").expect(rt, "memory")
}

// Whether a node is fetched from.
fn is_fetched<R: Net<Listener = TcpListener, Stream = TcpStream> + Clock + Threads + Abort + Sync>(
    rt: &R,
    alloc: Global,
) -> bool {
    let listener = TcpListener::bind(rt, "127.0.0.1:0").expect(rt, "a listener");
    let address = address_of(rt, alloc, &listener);
    let inventory = inventory(rt, alloc);
    let mut node = left(rt, alloc);
    let (served, fetched) = join(
        rt,
        || answers_once(alloc, &listener, &mut node),
        || gives_one(rt, alloc, &inventory, address),
    );
    served && fetched
}

#[test]
fn fetch_from_a_node(rt: HostRuntime) {
    assert!(rt; is_fetched(&rt, rt.alloc()));
}
