//! Who asks a node, and how a node stands.

/// Who makes an exchange with a node.
#[derive(Clone, Copy, Debug, PartialEq, Eq)]
pub enum Asker {
    /// A worker, for a query.
    Query,
    /// A syncer, for the node's history.
    Syncer,
}

/// How a node stands with the queries.
#[derive(Clone, Copy, Debug, PartialEq, Eq)]
pub enum Standing {
    /// It did not fail lately.
    Well,
    /// It failed lately: it is asked last.
    Ailing,
    /// It failed, and nobody tried it for a while: one query tries it.
    Due,
}
