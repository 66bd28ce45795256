//! What a config tells: the servers of a cluster, and what it does.
ghost use Rattle.std.specs.Prelude.{◌≡◌, ◌<◌, All, IfOk, length, map, option_map, string_bytes};
ghost use Rattle.druid_serve_config.specs.Configs.{IsNode, IsBroker, IsCompact, IsObject, IsWithinLimits, asked_of, node_of, broker_of, names_of, cluster_of, reported_of};

use druid_segment_id::{Name, SegmentId};
use std::alloc::{AllocError, Global};
use std::marker::Model;

// The addresses of a server.
#[derive(Drop)]
pub(crate) struct Addresses {
    pub(crate) address: String,
    pub(crate) listen: String,
    pub(crate) status: Option<String>,
}

impl Model for Addresses {
    ghost use Rattle.std.specs.Prelude.{option_map, string_bytes};
    ghost use Rattle.druid_serve_config.specs.Configs.{Addresses};

    ghost Value = { Addresses };

    ghost view = { λ a. record { address = string_bytes a.address; listen = string_bytes a.listen; status = option_map string_bytes a.status } };
}

/// A data node.
#[derive(Drop)]
pub struct NodeConfig {
    name: Name,
    addresses: Addresses,
    folder: String,
    loads: Vec<String>,
    tombstones: Vec<SegmentId>,
    workers: u16,
    watch: Option<u64>,
    front: u16,
    threads: u16,
}

impl Model for NodeConfig {
    ghost use Rattle.std.specs.Prelude.{map, string_bytes};
    ghost use Rattle.druid_serve_config.specs.Configs.{Node, IsNode, node_of};

    ghost Value = { Node };

    ghost view = { λ a. node_of a.name a.addresses (string_bytes a.folder) (map string_bytes a.loads.items) a.tombstones.items a.workers a.watch a.front a.threads };

    ghost invariant = { λ a. IsNode (node_of a.name a.addresses (string_bytes a.folder) (map string_bytes a.loads.items) a.tombstones.items a.workers a.watch a.front a.threads) };
}

impl NodeConfig {
    // The node of these parts.
    pub(crate) fn new(
        name: Name,
        addresses: Addresses,
        folder: String,
        loads: Vec<String>,
        tombstones: Vec<SegmentId>,
        workers: u16,
        watch: Option<u64>,
        front: u16,
        threads: u16,
    ) -> NodeConfig
        requires { IsNode (node_of name addresses (string_bytes folder) (map string_bytes loads.items) tombstones.items workers watch front threads) }
        ensures { result ≡ node_of name addresses (string_bytes folder) (map string_bytes loads.items) tombstones.items workers watch front threads }
    {
        NodeConfig {
            name,
            addresses,
            folder,
            loads,
            tombstones,
            workers,
            watch,
            front,
            threads,
        }
    }

    /// Its name.
    pub fn name(&self) -> &Name
        ensures value { result.now ≡ self.now.name }
        ensures valid { IsNode self.now }
    {
        &self.name
    }

    /// Where others reach it: an IPv4 address and a port, those of this machine where the config is of no network.
    pub fn address(&self) -> &str
        ensures value { result.now ≡ self.now.address }
        ensures valid { IsNode self.now }
    {
        self.addresses.address.as_str()
    }

    /// Where it listens, likewise: its address where the config says no other.
    pub fn listen(&self) -> &str
        ensures value { result.now ≡ self.now.listen }
        ensures valid { IsNode self.now }
    {
        self.addresses.listen.as_str()
    }

    /// The path of its folder.
    pub fn folder(&self) -> &str
        ensures { result.now ≡ self.now.folder }
    {
        self.folder.as_str()
    }

    /// The names of the files that it loads, in order.
    pub fn loads(&self) -> &[String]
        ensures { map string_bytes result.now ≡ self.now.loads }
    {
        self.loads.as_slice()
    }

    /// The chunks that it places tombstones of, in order: each by a segment of partition 0.
    pub fn tombstones(&self) -> &[SegmentId]
        ensures { result.now ≡ self.now.tombstones }
    {
        self.tombstones.as_slice()
    }

    /// How many threads answer, 1 to 16.
    pub fn workers(&self) -> u16
        ensures value { result ≡ self.now.workers }
        ensures valid { IsNode self.now }
    {
        self.workers
    }

    /// After how many milliseconds each it looks at its folder, 1 to 3,600,000; None where it does not.
    pub fn watch(&self) -> Option<u64>
        ensures value { result ≡ self.now.watch }
        ensures valid { IsNode self.now }
    {
        self.watch
    }

    /// Where it answers how it is, likewise; None where it does not.
    pub fn status(&self) -> Option<&str>
        ensures value { option_map (λ s. s.now) result ≡ self.now.status }
        ensures valid { IsNode self.now }
    {
        match &self.addresses.status {
            Some(status) => Some(status.as_str()),
            None => None,
        }
    }

    /// How many front threads wait for its clients, at most 256; 0 where its workers do.
    pub fn front(&self) -> u16
        ensures value { result ≡ self.now.front }
        ensures valid { IsNode self.now }
    {
        self.front
    }

    /// How many threads count one query, 1 to 16.
    pub fn threads(&self) -> u16
        ensures value { result ≡ self.now.threads }
        ensures valid { IsNode self.now }
    {
        self.threads
    }
}

/// A broker.
#[derive(Drop)]
pub struct BrokerConfig {
    addresses: Addresses,
    workers: u16,
    front: u16,
}

impl Model for BrokerConfig {
    ghost use Rattle.druid_serve_config.specs.Configs.{Broker, IsBroker, broker_of};

    ghost Value = { Broker };

    ghost view = { λ a. broker_of a.addresses a.workers a.front };

    ghost invariant = { λ a. IsBroker (broker_of a.addresses a.workers a.front) };
}

impl BrokerConfig {
    // The broker of these parts.
    pub(crate) fn new(addresses: Addresses, workers: u16, front: u16) -> BrokerConfig
        requires { IsBroker (broker_of addresses workers front) }
        ensures { result ≡ broker_of addresses workers front }
    {
        BrokerConfig {
            addresses,
            workers,
            front,
        }
    }

    /// Where others reach it: an IPv4 address and a port, those of this machine where the config is of no network.
    pub fn address(&self) -> &str
        ensures value { result.now ≡ self.now.address }
        ensures valid { IsBroker self.now }
    {
        self.addresses.address.as_str()
    }

    /// Where it listens, likewise: its address where the config says no other.
    pub fn listen(&self) -> &str
        ensures value { result.now ≡ self.now.listen }
        ensures valid { IsBroker self.now }
    {
        self.addresses.listen.as_str()
    }

    /// How many threads answer, 1 to 16.
    pub fn workers(&self) -> u16
        ensures value { result ≡ self.now.workers }
        ensures valid { IsBroker self.now }
    {
        self.workers
    }

    /// Where it answers how it is, likewise; None where it does not.
    pub fn status(&self) -> Option<&str>
        ensures value { option_map (λ s. s.now) result ≡ self.now.status }
        ensures valid { IsBroker self.now }
    {
        match &self.addresses.status {
            Some(status) => Some(status.as_str()),
            None => None,
        }
    }

    /// How many front threads wait for its clients, at most 256; 0 where its workers do.
    pub fn front(&self) -> u16
        ensures value { result ≡ self.now.front }
        ensures valid { IsBroker self.now }
    {
        self.front
    }
}

/// A query that is posted once the cluster stands.
#[derive(Drop)]
pub struct QueryConfig {
    broker: usize,
    text: String,
}

impl Model for QueryConfig {
    ghost use Rattle.std.specs.Prelude.{string_bytes};
    ghost use Rattle.druid_serve_config.specs.Configs.{Posted, IsCompact};

    ghost Value = { Posted };

    ghost view = { λ a. record { broker = a.broker; text = string_bytes a.text } };

    ghost invariant = { λ a. IsCompact (string_bytes a.text) };
}

impl QueryConfig {
    // The query of these parts.
    pub(crate) fn new(broker: usize, text: String) -> QueryConfig
        requires { IsCompact (string_bytes text) }
        ensures { result ≡ record { broker = broker; text = string_bytes text } }
    {
        QueryConfig { broker, text }
    }

    /// The place of the broker that is asked, from 0.
    pub fn broker(&self) -> usize
        ensures { result ≡ self.now.broker }
    {
        self.broker
    }

    /// The query, as compact JSON.
    pub fn text(&self) -> &str
        ensures value { result.now ≡ self.now.text }
        ensures compact { IsCompact self.now.text }
    {
        self.text.as_str()
    }
}

// What a cluster does.
#[derive(Drop)]
pub(crate) struct Settings {
    pub(crate) connections: u64,
    pub(crate) kept: u16,
    pub(crate) turns: u64,
    pub(crate) every: Option<u64>,
    pub(crate) patience: u64,
    pub(crate) network: bool,
    pub(crate) endless: bool,
}

impl Model for Settings {
    ghost use Rattle.druid_serve_config.specs.Configs.{Settings, settings_of};

    ghost Value = { Settings };

    ghost view = { λ a. settings_of a.connections a.kept a.turns a.every a.patience a.network a.endless };
}

/// A cluster, and what it does.
#[derive(Drop)]
pub struct Config {
    nodes: Vec<NodeConfig>,
    brokers: Vec<BrokerConfig>,
    queries: Vec<QueryConfig>,
    settings: Settings,
}

impl Model for Config {
    ghost use Rattle.druid_serve_config.specs.Configs.{Cluster, IsWithinLimits, cluster_of, reported_of};

    ghost Value = { Cluster };

    ghost view = { λ a. cluster_of a.nodes.items a.brokers.items a.queries.items a.settings };

    ghost invariant = { λ a. IsWithinLimits (reported_of (cluster_of a.nodes.items a.brokers.items a.queries.items a.settings)) };
}

impl Config {
    // The config of these parts.
    pub(crate) fn new(
        nodes: Vec<NodeConfig>,
        brokers: Vec<BrokerConfig>,
        queries: Vec<QueryConfig>,
        settings: Settings,
    ) -> Config
        requires { IsWithinLimits (reported_of (cluster_of nodes.items brokers.items queries.items settings)) }
        ensures { result ≡ cluster_of nodes.items brokers.items queries.items settings }
    {
        Config {
            nodes,
            brokers,
            queries,
            settings,
        }
    }

    /// The data nodes, 1 to 64, no two of one name.
    pub fn nodes(&self) -> &[NodeConfig]
        ensures value { result.now ≡ self.now.nodes }
        ensures valid { IsWithinLimits (reported_of self.now) }
    {
        self.nodes.as_slice()
    }

    /// The brokers, 1 to 64.
    pub fn brokers(&self) -> &[BrokerConfig]
        ensures value { result.now ≡ self.now.brokers }
        ensures valid { IsWithinLimits (reported_of self.now) }
    {
        self.brokers.as_slice()
    }

    /// The queries, in the order in which they are posted, each an object and to a broker that is there.
    pub fn queries(&self) -> &[QueryConfig]
        ensures value { result.now ≡ self.now.queries }
        ensures asked { All (λ q. q.broker < length self.now.brokers) self.now.queries }
        ensures objects { All (λ q. IsObject (asked_of q)) self.now.queries }
    {
        self.queries.as_slice()
    }

    /// How many connections from outside each broker answers before the program ends, at most 1,000,000; 0 where the cluster
    /// does not end.
    pub fn connections(&self) -> u64
        ensures value { result ≡ self.now.connections }
        ensures valid { IsWithinLimits (reported_of self.now) }
    {
        self.settings.connections
    }

    /// How many changes each node keeps, 1 to 1,000.
    pub fn kept(&self) -> usize
        ensures value { result ≡ self.now.kept }
        ensures valid { IsWithinLimits (reported_of self.now) }
    {
        self.settings.kept as usize
    }

    /// How many turns each syncer makes, at most 1,000,000.
    pub fn turns(&self) -> u64
        ensures value { result ≡ self.now.turns }
        ensures valid { IsWithinLimits (reported_of self.now) }
    {
        self.settings.turns
    }

    /// After how many milliseconds each a syncer makes a turn once it has made its turns, 1 to 3,600,000; None where it makes no
    /// more.
    pub fn every(&self) -> Option<u64>
        ensures value { result ≡ self.now.every }
        ensures valid { IsWithinLimits (reported_of self.now) }
    {
        self.settings.every
    }

    /// How many milliseconds an exchange with a node may take, 1 to 3,600,000; 30,000 where the config names none.
    pub fn patience(&self) -> u64
        ensures value { result ≡ self.now.patience }
        ensures valid { IsWithinLimits (reported_of self.now) }
    {
        self.settings.patience
    }

    /// Whether the program serves until it is ended: then `every` is there.
    pub fn is_endless(&self) -> bool
        ensures value { result ≡ self.now.endless }
        ensures valid { IsWithinLimits (reported_of self.now) }
    {
        self.settings.endless
    }
}

/// The names of nodes, in their order.
///
/// # Errors
///
/// Out of memory.
pub fn names_in(alloc: Global, nodes: &[NodeConfig]) -> Result<Vec<Name>, AllocError>
    ensures { IfOk result (λ names. names.items ≡ names_of nodes.now) }
{
    let mut names = Vec::with_capacity(alloc, nodes.len())?;
    for node in nodes {
        names.push(node.name().clone()?)?;
    }
    Ok(names)
}
