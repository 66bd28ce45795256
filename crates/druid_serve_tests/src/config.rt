//! Configs that are taken and that are refused.
use druid_serve_config::{ConfigFault, read_config};
use std::alloc::Global;
use std::process::Abort;

// A config of one node and one broker, each number at its limit.
fn whole() -> &'static str {
    "{\"brokers\":[{\"address\":\"127.0.0.1:9001\",\"workers\":16}],\"connections\":0,\"kept\":1000,\"nodes\":[{\"address\":\"127.0.0.1:65535\",\"folder\":\"f\",\"loads\":[\"a.seg\"],\"name\":\"n0\",\"workers\":1}],\"queries\":[{\"broker\":0,\"query\":{}}],\"turns\":1000000}"
}

/// What stands before the first such text, and what after it.
pub(crate) fn halves<'a>(rt: &impl Abort, text: &'a str, between: &str) -> (&'a str, &'a str) {
    text.split_once(between).expect(rt, "no such text")
}

fn reported_of(alloc: Global, text: String) -> &'static str {
    match read_config(alloc, text.as_bytes()) {
        Ok(_) => "taken",
        Err(ConfigFault::Refused) => "bad config",
        Err(ConfigFault::Memory) => "device",
    }
}

/// The config in which a text stands in the place of another.
pub(crate) fn changed(rt: &impl Abort, alloc: Global, from: &str, to: &str) -> String {
    let (front, back) = halves(rt, whole(), from);
    format!(in alloc; "{front}{to}{back}").expect(rt, "memory")
}

// Asserts what is reported of each config. A row has a text, and what stands in its place.
fn assert_reported(rt: &impl Abort, alloc: Global, rows: &str, wanted: &str) {
    for row in rows.lines() {
        let (from, to) = halves(rt, row, " = ");
        assert!(rt;
            reported_of(alloc, changed(rt, alloc, from, to)) == wanted,
            "{row}"
        );
    }
}

#[test]
fn taken_configs(rt: HostRuntime) {
    let rows = "\"kept\" = \"kept\"
\"turns\":1000000} = \"turns\":1000000,\"more\":[]}
\"connections\":0 = \"connections\":1000000
\"kept\":1000 = \"kept\":1
[\"a.seg\"] = []
[{\"broker\":0,\"query\":{}}] = []
\"name\":\"n0\" = \"name\":\"n0\",\"tombstones\":[]
\"name\":\"n0\" = \"name\":\"n0\",\"tombstones\":[{\"dataSource\":\"w\",\"interval\":\"2024-01-01/2024-01-02\",\"version\":\"v\"},{\"dataSource\":\"w\",\"interval\":\"2024-01-01/2024-01-02\",\"version\":\"v\"}]
{} = {\"a\":[1,null]}";
    assert_reported(&rt, rt.alloc(), rows, "taken");
}

#[test]
fn refused_configs(rt: HostRuntime) {
    let rows = "\"turns\":1000000} = \"turns\":1000000
\"turns\":1000000 = \"turn\":1
\"turns\":1000000 = \"turns\":1000001
\"turns\":1000000 = \"turns\":-1
\"turns\":1000000 = \"turns\":1.0
\"connections\":0 = \"connections\":1000001
\"connections\":0 = \"connections\":null
\"kept\":1000 = \"kept\":0
\"kept\":1000 = \"kept\":1001
\"workers\":16 = \"workers\":17
\"workers\":16 = \"workers\":0
\"workers\":1} = \"workers\":0}
\"n0\" = \"n 0\"
\"n0\" = \"\"
\"n0\" = 0
\"f\" = 1
[\"a.seg\"] = [1]
[\"a.seg\"] = {}
\"name\":\"n0\" = \"name\":\"n0\",\"tombstones\":null
\"name\":\"n0\" = \"name\":\"n0\",\"tombstones\":{\"dataSource\":\"w\",\"interval\":\"2024-01-01/2024-01-02\",\"version\":\"v\"}
\"name\":\"n0\" = \"name\":\"n0\",\"tombstones\":[{}]
\"name\":\"n0\" = \"name\":\"n0\",\"tombstones\":[{\"dataSource\":\"w\",\"interval\":\"2024-01-01\",\"version\":\"v\"}]
\"name\":\"n0\" = \"name\":\"n0\",\"tombstones\":[{\"dataSource\":\"w\",\"interval\":\"2024-01-01/2024-01-02\",\"version\":\"v_1\"}]
127.0.0.1:9001 = 127.0.0.1:0
127.0.0.1:9001 = 127.0.0.1
127.0.0.1:9001 = 127.0.0.1:65536
127.0.0.1:9001 = 0.0.0.0:9001
\"broker\":0 = \"broker\":1
\"broker\":0 = \"broker\":-1
{} = []
{} = \"\"
[{\"broker\":0,\"query\":{}}] = {}
[{\"address\":\"127.0.0.1:9001\",\"workers\":16}] = []";
    assert_reported(&rt, rt.alloc(), rows, "bad config");
}

// A node of the name that a letter and its place give.
fn node(rt: &impl Abort, alloc: Global, place: usize) -> String {
    let comma = if place == 0 { "" } else { "," };
    format!(in alloc;
        "{comma}{{\"address\":\"127.0.0.1:9002\",\"folder\":\"\",\"loads\":[],\"name\":\"n{place}\",\"workers\":1}}"
    ).expect(rt, "memory")
}

fn nodes(rt: &impl Abort, alloc: Global, count: usize) -> String {
    let mut text = String::new(alloc);
    for place in 0..count {
        let node = node(rt, alloc, place);
        text.push_str(node.as_str()).expect(rt, "memory");
    }
    text
}

// A config of so many nodes.
fn with_nodes(rt: &impl Abort, alloc: Global, count: usize) -> String {
    let (front, rest) = halves(rt, whole(), "{\"address\":\"127.0.0.1:65535\"");
    let (_, back) = halves(rt, rest, "}]");
    let nodes = nodes(rt, alloc, count);
    format!(in alloc; "{front}{nodes}]{back}").expect(rt, "memory")
}

#[test]
fn numbers_of_nodes(rt: HostRuntime) {
    for count in 0..66_usize {
        let wanted = if 1 <= count && count <= 64 {
            "taken"
        } else {
            "bad config"
        };
        let reported = reported_of(rt.alloc(), with_nodes(&rt, rt.alloc(), count));
        assert!(rt; reported == wanted, "{count}");
    }
}

// So many times a text, with commas between.
fn listed(rt: &impl Abort, alloc: Global, text: &str, count: usize) -> String {
    let mut list = String::new(alloc);
    for place in 0..count {
        let comma = if place == 0 { "" } else { "," };
        list.push_str(comma).expect(rt, "memory");
        list.push_str(text).expect(rt, "memory");
    }
    list
}

// Asserts what becomes of a config in which a text stands so many times in place of itself.
fn assert_listed(rt: &impl Abort, alloc: Global, text: &str, count: usize, wanted: &str) {
    let list = listed(rt, alloc, text, count);
    let reported = reported_of(alloc, changed(rt, alloc, text, list.as_str()));
    assert!(rt; reported == wanted, "{text} {count}");
}

#[test]
fn numbers_of_brokers_and_queries(rt: HostRuntime) {
    let broker = "{\"address\":\"127.0.0.1:9001\",\"workers\":16}";
    for count in [1usize, 2, 3, 5, 17, 64] {
        assert_listed(&rt, rt.alloc(), broker, count, "taken");
    }
    assert_listed(&rt, rt.alloc(), broker, 65, "bad config");
    let query = "{\"broker\":0,\"query\":{}}";
    for count in [0usize, 1, 2, 3, 5, 17, 65, 1_000] {
        assert_listed(&rt, rt.alloc(), query, count, "taken");
    }
}

/// A config of two nodes of one name.
pub(crate) fn with_doubled(rt: &impl Abort, alloc: Global) -> String {
    let text = with_nodes(rt, alloc, 2);
    let (front, back) = halves(rt, text.as_str(), "n1");
    format!(in alloc; "{front}n0{back}").expect(rt, "memory")
}

#[test]
fn doubled_names(rt: HostRuntime) {
    let reported = reported_of(rt.alloc(), with_doubled(&rt, rt.alloc()));
    assert!(rt; reported == "bad config");
}

#[test]
fn a_config_at_its_limits(rt: HostRuntime) {
    let config = read_config(rt.alloc(), whole().as_bytes()).expect(&rt, "a config");
    assert!(rt;
        config.nodes().len() == 1 && config.brokers().len() == 1 && config.queries().len() == 1
    );
    assert!(rt; config.kept() == 1000 && config.turns() == 1_000_000 && config.connections() == 0);
}

// With rests: of syncers, and of a node that looks at its folder.
#[test]
fn taken_rests(rt: HostRuntime) {
    let rows = "\"turns\":1000000 = \"turns\":1000000,\"every\":1
\"turns\":1000000 = \"turns\":0,\"every\":3600000
\"connections\":0 = \"every\":5
\"connections\":0 = \"connections\":7,\"every\":5
\"workers\":1} = \"workers\":1,\"watch\":1}
\"workers\":1} = \"workers\":1,\"watch\":3600000}";
    assert_reported(&rt, rt.alloc(), rows, "taken");
}

#[test]
fn refused_rests(rt: HostRuntime) {
    let rows = "\"turns\":1000000 = \"turns\":1000000,\"every\":0
\"turns\":1000000 = \"turns\":1000000,\"every\":3600001
\"turns\":1000000 = \"turns\":1000000,\"every\":null
\"turns\":1000000 = \"turns\":1000000,\"every\":1.5
\"turns\":1000000 = \"turns\":1000000,\"every\":\"5\"
\"connections\":0 = \"connection\":0
\"connections\":0 = \"every\":null
\"connections\":0 = \"connections\":null,\"every\":5
\"workers\":1} = \"workers\":1,\"watch\":0}
\"workers\":1} = \"workers\":1,\"watch\":3600001}
\"workers\":1} = \"workers\":1,\"watch\":null}";
    assert_reported(&rt, rt.alloc(), rows, "bad config");
}

// What the rests of a config are: those of syncers, those of its first node, and whether it ends.
fn rests_of(rt: &impl Abort, alloc: Global, text: &str) -> (Option<u64>, Option<u64>, bool) {
    let config = read_config(alloc, text.as_bytes()).expect(rt, "a config");
    let watch = config.nodes()[0].watch();
    (config.every(), watch, config.is_endless())
}

#[test]
fn rests(rt: HostRuntime) {
    let alloc = rt.alloc();
    assert!(rt; rests_of(&rt, alloc, whole()) == (None, None, false));
    let text = changed(&rt, alloc, "\"connections\":0", "\"every\":250");
    assert!(rt; rests_of(&rt, alloc, text.as_str()) == (Some(250), None, true));
    let text = changed(
        &rt,
        alloc,
        "\"connections\":0",
        "\"connections\":3,\"every\":9",
    );
    assert!(rt; rests_of(&rt, alloc, text.as_str()) == (Some(9), None, false));
    let text = changed(&rt, alloc, "\"workers\":1}", "\"workers\":1,\"watch\":20}");
    assert!(rt; rests_of(&rt, alloc, text.as_str()) == (None, Some(20), false));
}

// With an address of a server's status, and a patience with nodes.
#[test]
fn taken_statuses(rt: HostRuntime) {
    let rows = "\"turns\":1000000 = \"turns\":1000000,\"patience\":1
\"turns\":1000000 = \"turns\":1000000,\"patience\":3600000
\"workers\":1} = \"workers\":1,\"status\":\"127.0.0.1:1\"}
\"workers\":16} = \"workers\":16,\"status\":\"127.0.0.1:65535\"}
\"workers\":16} = \"workers\":16,\"status\":\"127.0.0.1:9001\"}";
    assert_reported(&rt, rt.alloc(), rows, "taken");
}

#[test]
fn refused_statuses(rt: HostRuntime) {
    let rows = "\"turns\":1000000 = \"turns\":1000000,\"patience\":0
\"turns\":1000000 = \"turns\":1000000,\"patience\":3600001
\"turns\":1000000 = \"turns\":1000000,\"patience\":null
\"turns\":1000000 = \"turns\":1000000,\"patience\":\"5\"
\"workers\":1} = \"workers\":1,\"status\":\"127.0.0.1:0\"}
\"workers\":1} = \"workers\":1,\"status\":null}
\"workers\":1} = \"workers\":1,\"status\":9001}
\"workers\":16} = \"workers\":16,\"status\":\"127.0.0.1:65536\"}
\"workers\":16} = \"workers\":16,\"status\":\"0.0.0.0:9001\"}
\"workers\":16} = \"workers\":16,\"status\":\"\"}";
    assert_reported(&rt, rt.alloc(), rows, "bad config");
}

// Asserts what a config says of the statuses of the first node and the first broker, with a dash for none, and of the patience.
fn assert_statuses(rt: &impl Abort, alloc: Global, text: &str, wanted: &str) {
    let config = read_config(alloc, text.as_bytes()).expect(rt, "a config");
    let node = config.nodes()[0].status().unwrap_or("-");
    let broker = config.brokers()[0].status().unwrap_or("-");
    let patience = config.patience();
    let parts = format!(in alloc; "{node} {broker} {patience}").expect(rt, "memory");
    assert!(rt; parts.as_str() == wanted, "{parts}");
}

#[test]
fn statuses(rt: HostRuntime) {
    let alloc = rt.alloc();
    assert_statuses(&rt, alloc, whole(), "- - 30000");
    let row = "\"workers\":1,\"status\":\"127.0.0.1:7001\"}";
    let text = changed(&rt, alloc, "\"workers\":1}", row);
    assert_statuses(&rt, alloc, text.as_str(), "127.0.0.1:7001 - 30000");
    let row = "\"workers\":16,\"status\":\"127.0.0.1:7002\"}";
    let text = changed(&rt, alloc, "\"workers\":16}", row);
    assert_statuses(&rt, alloc, text.as_str(), "- 127.0.0.1:7002 30000");
    let text = changed(&rt, alloc, "\"kept\"", "\"patience\":250,\"kept\"");
    assert_statuses(&rt, alloc, text.as_str(), "- - 250");
}

// With front threads of a server.
#[test]
fn taken_fronts(rt: HostRuntime) {
    let rows = "\"workers\":1} = \"workers\":1,\"front\":0}
\"workers\":1} = \"workers\":1,\"front\":256}
\"workers\":16} = \"workers\":16,\"front\":1}";
    assert_reported(&rt, rt.alloc(), rows, "taken");
}

#[test]
fn refused_fronts(rt: HostRuntime) {
    let rows = "\"workers\":1} = \"workers\":1,\"front\":257}
\"workers\":1} = \"workers\":1,\"front\":null}
\"workers\":16} = \"workers\":16,\"front\":\"8\"}
\"workers\":16} = \"workers\":16,\"front\":1.5}";
    assert_reported(&rt, rt.alloc(), rows, "bad config");
}

// How many front threads the first node and the first broker of a config have.
fn fronts_of(rt: &impl Abort, alloc: Global, text: &str) -> (u16, u16) {
    let config = read_config(alloc, text.as_bytes()).expect(rt, "a config");
    (config.nodes()[0].front(), config.brokers()[0].front())
}

#[test]
fn fronts(rt: HostRuntime) {
    let alloc = rt.alloc();
    assert!(rt; fronts_of(&rt, alloc, whole()) == (0, 0));
    let text = changed(&rt, alloc, "\"workers\":1}", "\"workers\":1,\"front\":64}");
    assert!(rt; fronts_of(&rt, alloc, text.as_str()) == (64, 0));
    let text = changed(
        &rt,
        alloc,
        "\"workers\":16}",
        "\"workers\":16,\"front\":256}",
    );
    assert!(rt; fronts_of(&rt, alloc, text.as_str()) == (0, 256));
}

// With threads of a node for one query.
#[test]
fn taken_threads(rt: HostRuntime) {
    let rows = "\"workers\":1} = \"workers\":1,\"threads\":1}
\"workers\":1} = \"workers\":1,\"threads\":16}
\"workers\":16} = \"workers\":16,\"threads\":0}";
    assert_reported(&rt, rt.alloc(), rows, "taken");
}

#[test]
fn refused_threads(rt: HostRuntime) {
    let rows = "\"workers\":1} = \"workers\":1,\"threads\":0}
\"workers\":1} = \"workers\":1,\"threads\":17}
\"workers\":1} = \"workers\":1,\"threads\":null}
\"workers\":1} = \"workers\":1,\"threads\":\"4\"}";
    assert_reported(&rt, rt.alloc(), rows, "bad config");
}

// On how many threads the first node of a config counts one query.
fn threads_of(rt: &impl Abort, alloc: Global, text: &str) -> u16 {
    let config = read_config(alloc, text.as_bytes()).expect(rt, "a config");
    config.nodes()[0].threads()
}

#[test]
fn threads(rt: HostRuntime) {
    let alloc = rt.alloc();
    assert!(rt; threads_of(&rt, alloc, whole()) == 1);
    let text = changed(
        &rt,
        alloc,
        "\"workers\":1}",
        "\"workers\":1,\"threads\":16}",
    );
    assert!(rt; threads_of(&rt, alloc, text.as_str()) == 16);
}

// Asserts what is reported of the whole config with such a key, and of each address in the place of that of its node, of where that
// listens and of its status.
fn assert_addresses(rt: &impl Abort, alloc: Global, network: &str, addresses: &str, wanted: &str) {
    for address in addresses.lines() {
        for key in ["address", "listen", "status"] {
            let reported = reported_of(alloc, with_address(rt, alloc, network, key, address));
            assert!(rt; reported == wanted, "{network} {key} {address}");
        }
    }
}

// The whole config with a key before all others, and for its node an address at a key. Of a key that stands twice the last counts.
fn with_address(rt: &impl Abort, alloc: Global, network: &str, key: &str, address: &str) -> String {
    let node = format!(in alloc; "\"workers\":1,\"{key}\":{address}}}").expect(rt, "memory");
    let text = changed(rt, alloc, "\"workers\":1}", node.as_str());
    let (_, rest) = halves(rt, text.as_str(), "{");
    format!(in alloc; "{{{network}{rest}").expect(rt, "memory")
}

#[test]
fn addresses_of_a_network(rt: HostRuntime) {
    let other = "\"10.0.0.5:8083\"
\"0.0.0.0:1\"
\"255.255.255.255:65535\"
\"192.168.1.20:80\"";
    assert_addresses(&rt, rt.alloc(), "\"network\":true,", other, "taken");
    assert_addresses(&rt, rt.alloc(), "\"network\":false,", other, "bad config");
    assert_addresses(&rt, rt.alloc(), "", other, "bad config");
    let local = "\"127.0.0.1:1\"
\"127.0.0.1:65535\"";
    for network in ["\"network\":true,", "\"network\":false,", ""] {
        assert_addresses(&rt, rt.alloc(), network, local, "taken");
    }
}

#[test]
fn refused_addresses(rt: HostRuntime) {
    let refused = "\"10.0.0.256:80\"
\"256.0.0.1:80\"
\"10.0.0.05:80\"
\"010.0.0.5:80\"
\"10.0.0:80\"
\"10.0.0.5.6:80\"
\"10..0.5:80\"
\".0.0.5:80\"
\"10.0.0.:80\"
\"10.0.0.5:0\"
\"10.0.0.5:65536\"
\"10.0.0.5:080\"
\"10.0.0.5:+80\"
\"10.0.0.5:\"
\"10.0.0.5\"
\"10.0.0.5:80:80\"
\"10.0.0.5:80 \"
\" 10.0.0.5:80\"
\"10.0.0.-5:80\"
\"10.0.0.0x5:80\"
\"10.0.0.18446744073709551616:80\"
\"[::1]:80\"
\"::1:80\"
\"localhost:80\"
\"n0.example.org:80\"
\":80\"
\"\"
8083
null
[\"10.0.0.5:80\"]";
    for network in ["\"network\":true,", "\"network\":false,", ""] {
        assert_addresses(&rt, rt.alloc(), network, refused, "bad config");
    }
}

#[test]
fn networks(rt: HostRuntime) {
    let rows = "\"kept\" = \"network\":true,\"kept\"
\"kept\" = \"network\":false,\"kept\"";
    assert_reported(&rt, rt.alloc(), rows, "taken");
    let rows = "\"kept\" = \"network\":\"true\",\"kept\"
\"kept\" = \"network\":1,\"kept\"
\"kept\" = \"network\":null,\"kept\"
\"kept\" = \"network\":[],\"kept\"
\"workers\":16} = \"workers\":16,\"listen\":\"0.0.0.0:9001\"}
127.0.0.1:9001 = 10.0.0.5:9001";
    assert_reported(&rt, rt.alloc(), rows, "bad config");
}

// Asserts where the first node and the first broker of a config are reached and listen.
fn assert_listen(rt: &impl Abort, alloc: Global, text: &str, wanted: &str) {
    let config = read_config(alloc, text.as_bytes()).expect(rt, "a config");
    let (node, broker) = (&config.nodes()[0], &config.brokers()[0]);
    let parts = format!(in alloc;
        "{} {}, {} {}",
        node.address(),
        node.listen(),
        broker.address(),
        broker.listen()
    )
    .expect(rt, "memory");
    assert!(rt; parts.as_str() == wanted, "{parts}");
}

#[test]
fn listens(rt: HostRuntime) {
    let alloc = rt.alloc();
    let own = "127.0.0.1:65535 127.0.0.1:65535, 127.0.0.1:9001 127.0.0.1:9001";
    assert_listen(&rt, alloc, whole(), own);
    let text = with_address(&rt, alloc, "", "listen", "\"127.0.0.1:80\"");
    let node = "127.0.0.1:65535 127.0.0.1:80, 127.0.0.1:9001 127.0.0.1:9001";
    assert_listen(&rt, alloc, text.as_str(), node);
    let row = "\"workers\":16,\"listen\":\"0.0.0.0:9001\"}],\"network\":true";
    let text = changed(&rt, alloc, "\"workers\":16}]", row);
    let broker = "127.0.0.1:65535 127.0.0.1:65535, 127.0.0.1:9001 0.0.0.0:9001";
    assert_listen(&rt, alloc, text.as_str(), broker);
}
