//! A broker that is seeded by another over a socket of this machine.
ghost use Rattle.std.specs.Prelude.{◌≡◌};

use crate::cluster::{Cluster, Handle, Setup, followed, is_linked, set_up};
use crate::follow::one_node;
use crate::tables::printed;
use druid_broker::{Routes, serve_one};
use druid_broker_follow::seed_turn;
use druid_broker_scatter::Rotate;
use druid_inventory::Inventory;
use druid_inventory_views::{Opened, Publication, Publisher, open};
use druid_link::TcpLink;
use std::alloc::Global;
use std::io::BufReader;
use std::marker::Brand;
use std::net::{Net, TcpListener, TcpStream};
use std::process::Abort;
use std::thread::join;
use std::time::Clock;

// Answers one connection, and says whether it did.
fn answers_once<R: Handle, J: Publication>(
    alloc: Global,
    listener: &TcpListener,
    peer: &mut Cluster<R, J>,
) -> bool {
    if !is_linked(peer) {
        return false;
    }
    let Ok(routes) = Routes::new(alloc) else {
        return false;
    };
    let Ok((socket, _)) = listener.accept() else {
        return false;
    };
    let Ok(mut reader) = BufReader::new(alloc, &socket) else {
        return false;
    };
    let (rt, mut writer) = (peer.rt, &socket);
    serve_one(
        &rt,
        alloc,
        &routes,
        &mut reader,
        &mut writer,
        &mut peer.view,
        0,
        &Rotate,
        &mut peer.links,
    )
    .is_ok()
}

// Whether a broker is seeded over the socket.
fn is_seeded_over<R: Handle + Net + Clock, J: Publication>(
    rt: R,
    alloc: Global,
    address: String,
    publisher: &mut Publisher<J, R>,
) -> bool {
    if publisher.inventory().node_count() == 0 {
        return false;
    }
    let mut link = TcpLink::new(rt, address);
    seed_turn(alloc, 0, &mut link, publisher).is_ok()
}

fn address_of(rt: &impl Abort, alloc: Global, listener: &TcpListener) -> String {
    let address = listener.local_addr().expect(rt, "an address");
    printed(rt, alloc, &address)
}

// Whether a broker that is seeded by this one over a socket equals it then.
fn equals_once_seeded<
    R: Handle + Net<Listener = TcpListener, Stream = TcpStream> + Clock,
    J: Publication + Send,
    K: Publication + Send,
>(rt: R, alloc: Global, peer: &mut Cluster<R, J>, publisher: &mut Publisher<K, R>) -> bool {
    let listener = TcpListener::bind(&rt, "127.0.0.1:0").expect(&rt, "a listener");
    let address = address_of(&rt, alloc, &listener);
    let (served, seeded) = join(
        &rt,
        || answers_once(alloc, &listener, peer),
        || is_seeded_over(rt, alloc, address, publisher),
    );
    served && seeded && publisher.inventory() == peer.publisher.inventory()
}

// The same of a broker of these parts, and of one of this inventory.
fn equals_its_peer<
    R: Handle + Net<Listener = TcpListener, Stream = TcpStream> + Clock,
    J: Publication + Send,
    K: Publication + Send,
>(rt: R, alloc: Global, setup: Setup<R>, list: Opened, inventory: Inventory) -> bool
    requires peer_book { setup.list ≡ J.book }
    requires peer { setup.inventory ≡ J.opening }
    requires book { list ≡ K.book }
    requires opening { inventory ≡ K.opening }
{
    let mut peer: Cluster<R, J> = followed(rt, alloc, setup, 1);
    let (mut publisher, _views) = open::<K, R>(alloc, rt, list, inventory, 1).expect(&rt, "memory");
    equals_once_seeded(rt, alloc, &mut peer, &mut publisher)
}

fn seeded<R: Handle + Net<Listener = TcpListener, Stream = TcpStream> + Clock>(
    rt: R,
    alloc: Global,
) -> bool {
    let setup = set_up(rt, alloc, "v1/0/24/0/1 d:m 0/a/1");
    let inventory = one_node(&rt, alloc);
    equals_its_peer::<R, Brand, Brand>(rt, alloc, setup, Opened::new(), inventory)
}

#[test]
fn seed_over_sockets(rt: HostRuntime) {
    assert!(rt; seeded(&rt, rt.alloc()));
}
