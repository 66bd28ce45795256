//! Servers that listen elsewhere than where others reach them.
use crate::host::{address_of, listener};
use crate::live_clusters::{answered, link_to};
use crate::serve::{Place, clear, place_of, served};
use std::alloc::Global;
use std::net::{Net, TcpListener, TcpStream};
use std::process::Abort;

const HEALTH: &[u8] = b"GET /status/health HTTP/1.1\r\n\r\n";

// A config of a network with a node and a broker that have these addresses, and listen where the first of a place are.
fn config(rt: &impl Abort, alloc: Global, place: &Place, node: &str, broker: &str) -> String {
    let (first, at, folder) = (&place.first, &place.broker, &place.older);
    format!(in alloc;
        "{{\"brokers\":[{{\"address\":\"{broker}\",\"listen\":\"{at}\",\"workers\":1}}],\"connections\":0,\"kept\":10,\"network\":true,\"nodes\":[{{\"address\":\"{node}\",\"folder\":\"{folder}\",\"listen\":\"{first}\",\"loads\":[],\"name\":\"n0\",\"workers\":1}}],\"patience\":200,\"queries\":[],\"turns\":1}}"
    ).expect(rt, "memory")
}

// Whether somebody connected to a listener.
fn was_reached(rt: &impl Abort, listener: &TcpListener) -> bool {
    listener.set_nonblocking(true).expect(rt, "a listener");
    listener.accept().is_ok()
}

fn assert_refused<R: Net<Listener = TcpListener, Stream = TcpStream> + Abort>(
    rt: &R,
    address: &str,
) {
    assert!(rt; TcpStream::connect(rt, address).is_err(), "{address}");
}

// Others hold both addresses as the servers start, which do not listen there, and answer where they do; the broker asks the node by
// its address. Once nobody holds them, nobody is there.
#[test]
fn elsewhere(rt: HostRuntime) {
    let alloc = rt.alloc();
    let place = place_of(&rt, alloc, "elsewhere");
    let (node, broker) = (listener(&rt), listener(&rt));
    let (node_at, broker_at) = (
        address_of(&rt, alloc, &node),
        address_of(&rt, alloc, &broker),
    );
    let text = config(&rt, alloc, &place, node_at.as_str(), broker_at.as_str());
    let reported = served(&rt, alloc, text.as_str());
    assert!(&rt; reported.as_str() == "0\n", "{reported}");
    for address in [&place.first, &place.broker] {
        let mut link = link_to(&rt, alloc, address.as_str());
        let answer = answered(&rt, alloc, &mut link, HEALTH);
        assert!(&rt; answer.as_str().ends_with("\r\n\r\ntrue"), "{answer}");
    }
    assert!(&rt; was_reached(&rt, &node) && !was_reached(&rt, &broker));
    drop((node, broker));
    assert_refused(&rt, node_at.as_str());
    assert_refused(&rt, broker_at.as_str());
    clear(&rt, &place);
}
