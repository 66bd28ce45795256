//! Which field of a config is wrong, and why.
use thiserror::Error;

/// Why JSON is no config: the first field that is wrong. Places count from 0.
#[derive(Clone, Copy, Debug, PartialEq, Eq, Drop, Error)]
pub enum BadField {
    /// The bytes are no JSON in UTF-8.
    #[error("the config: not JSON in UTF-8")]
    Json,
    /// A field of the whole.
    #[error("{0}")]
    Whole(WholeRule),
    /// A field of the node at a place.
    #[error("nodes[{0}].{1}")]
    Node(usize, NodeRule),
    /// A field of the broker at a place.
    #[error("brokers[{0}].{1}")]
    Broker(usize, BrokerRule),
    /// A field of the query at a place.
    #[error("queries[{0}].{1}")]
    Query(usize, QueryRule),
}

/// What a field of the whole has to be, and is not.
#[derive(Clone, Copy, Debug, PartialEq, Eq, Drop, Error)]
pub enum WholeRule {
    /// `connections` is such a number, or absent where there is `every`.
    #[error("connections: not a number from 0 to 1000000")]
    Connections,
    /// `kept` is such a number.
    #[error("kept: not a number from 1 to 1000")]
    Kept,
    /// `turns` is such a number.
    #[error("turns: not a number from 0 to 1000000")]
    Turns,
    /// `every` is absent, or such a number.
    #[error("every: not a number from 1 to 3600000")]
    Every,
    /// `patience` is absent, or such a number.
    #[error("patience: not a number from 1 to 3600000")]
    Patience,
    /// `network` is absent, or a boolean.
    #[error("network: not true or false")]
    Network,
    /// `nodes` is a list.
    #[error("nodes: not a list")]
    Nodes,
    /// There are so many nodes.
    #[error("nodes: not 1 to 64 of them")]
    NodeCount,
    /// `brokers` is a list.
    #[error("brokers: not a list")]
    Brokers,
    /// There are so many brokers.
    #[error("brokers: not 1 to 64 of them")]
    BrokerCount,
    /// `queries` is a list.
    #[error("queries: not a list")]
    Queries,
}

/// What an address has to be, and is not.
#[derive(Clone, Copy, Debug, PartialEq, Eq, Drop, Error)]
pub enum AddressRule {
    /// One of this machine, where the config has no `"network": true`.
    #[error("127.0.0.1: and a port from 1 to 65535")]
    Local,
    /// One of any machine.
    #[error("an IPv4 address, a colon and a port from 1 to 65535")]
    Network,
}

/// What a field of a node has to be, and is not.
#[derive(Clone, Copy, Debug, PartialEq, Eq, Drop, Error)]
pub enum NodeRule {
    /// `name` is the name of a node.
    #[error("name: not a name of 1 to 100 letters, digits, '_', '-' and '.'")]
    Name,
    /// No later node has the name.
    #[error("name: a later node has it too")]
    OwnName,
    /// `address` is an address.
    #[error("address: not {0}")]
    Address(AddressRule),
    /// `folder` is a text.
    #[error("folder: not a text")]
    Folder,
    /// `loads` is a list of texts.
    #[error("loads: not a list of texts")]
    Loads,
    /// `tombstones` is absent, or a list of chunks, each by its source, interval and version.
    #[error("tombstones: not a list of objects with dataSource, interval and version")]
    Tombstones,
    /// `workers` is such a number.
    #[error("workers: not a number from 1 to 16")]
    Workers,
    /// `watch` is absent, or such a number.
    #[error("watch: not a number from 1 to 3600000")]
    Watch,
    /// `status` is absent, or an address.
    #[error("status: not {0}")]
    Status(AddressRule),
    /// `front` is absent, or such a number.
    #[error("front: not a number from 0 to 256")]
    Front,
    /// `listen` is absent, or an address.
    #[error("listen: not {0}")]
    Listen(AddressRule),
    /// `threads` is absent, or such a number.
    #[error("threads: not a number from 1 to 16")]
    Threads,
}

/// What a field of a broker has to be, and is not.
#[derive(Clone, Copy, Debug, PartialEq, Eq, Drop, Error)]
pub enum BrokerRule {
    /// `address` is an address.
    #[error("address: not {0}")]
    Address(AddressRule),
    /// `workers` is such a number.
    #[error("workers: not a number from 1 to 16")]
    Workers,
    /// `status` is absent, or an address.
    #[error("status: not {0}")]
    Status(AddressRule),
    /// `front` is absent, or such a number.
    #[error("front: not a number from 0 to 256")]
    Front,
    /// `listen` is absent, or an address.
    #[error("listen: not {0}")]
    Listen(AddressRule),
}

/// What a field of a query has to be, and is not.
#[derive(Clone, Copy, Debug, PartialEq, Eq, Drop, Error)]
pub enum QueryRule {
    /// `broker` is the place of a broker.
    #[error("broker: not the place of a broker, which count from 0")]
    Broker,
    /// `query` is an object.
    #[error("query: not an object")]
    Query,
}
