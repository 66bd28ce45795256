//! A config, built out of JSON that was judged before: only memory can still run out. A query is
//! kept as its compact text, which reads back as its JSON; where that has a fraction no more is
//! said of the text.
ghost use Rattle.std.specs.Prelude.{◌≡◌, ◌≤◌, Some, IsSome, IfOk, map, option_map, string_bytes};
ghost use Rattle.serde_json.specs.Data.{depth, items_depth};
ghost use Rattle.serde_json.specs.Find.{as_str};
ghost use Rattle.serde_json.specs.Read.{max_depth};
ghost use Rattle.serde_json.specs.View.{view, items_view};
ghost use Rattle.druid_base.specs.Each.{each_of};
ghost use Rattle.druid_serve_config.specs.Configs.{addresses_of, asked_of, reported_of, name_at, loads_at, tombstone_at, tombstones_at, node_at, broker_at, query_at, nodes_at, brokers_at, queries_at, settings_at, config_at};

use crate::config::{Addresses, Settings};
use crate::fields::{
    address_field, another_field, chunk_field, connections_field, count_field, front_field,
    is_endless, name_field, network_field, object_field, patience_field, place_field, rest_field,
    some_field, threads_field,
};
use crate::limits::{MAX_KEPT, MAX_WORKERS};
use crate::{BrokerConfig, Config, NodeConfig, QueryConfig};
use druid_base::{list_field, text_field};
use druid_segment_id::{IdFault, Name, SegmentId, Version};
use serde_json::Value;
use std::alloc::{AllocError, Global};

// Copies of the texts.
fn texts_of(alloc: Global, values: &[Value]) -> Result<Vec<String>, AllocError>
    requires { IsSome (each_of as_str (items_view values.now)) }
    ensures { IfOk result (λ texts. each_of as_str (items_view values.now) ≡ Some (map string_bytes texts.items)) }
{
    let mut texts = Vec::with_capacity(alloc, values.len())?;
    for value in values {
        let Some(text) = value.as_str() else {
            unreachable!()
        };
        texts.push(String::from_str(alloc, text)?)?;
    }
    Ok(texts)
}

// The names of the files that a node loads.
fn loads_of(alloc: Global, value: &Value) -> Result<Vec<String>, AllocError>
    requires { IsSome (loads_at (view value.now)) }
    ensures { IfOk result (λ loads. loads_at (view value.now) ≡ Some (map string_bytes loads.items)) }
{
    let Some(values) = list_field(value, "loads") else {
        unreachable!()
    };
    texts_of(alloc, values)
}

// The segment of a tombstone: the one partition of its chunk.
fn tombstone_of(alloc: Global, value: &Value) -> Result<SegmentId, AllocError>
    requires { IsSome (tombstone_at (view value.now)) }
    ensures { IfOk result (λ id. tombstone_at (view value.now) ≡ Some id) }
{
    let Some(chunk) = chunk_field(value) else {
        unreachable!()
    };
    let Ok(source) = Name::new(alloc, chunk.source) else {
        return Err(AllocError);
    };
    let Ok(version) = Version::new(alloc, chunk.version) else {
        return Err(AllocError);
    };
    Ok(SegmentId::new(source, chunk.interval, version, 0))
}

// The tombstones that values are.
fn tombstone_list(alloc: Global, values: &[Value]) -> Result<Vec<SegmentId>, AllocError>
    requires { IsSome (each_of tombstone_at (items_view values.now)) }
    ensures { IfOk result (λ ids. each_of tombstone_at (items_view values.now) ≡ Some ids.items) }
{
    let mut ids = Vec::with_capacity(alloc, values.len())?;
    for value in values {
        ids.push(tombstone_of(alloc, value)?)?;
    }
    Ok(ids)
}

// The tombstones that a node places.
fn tombstones_of(alloc: Global, value: &Value) -> Result<Vec<SegmentId>, AllocError>
    requires { IsSome (tombstones_at (view value.now)) }
    ensures { IfOk result (λ ids. tombstones_at (view value.now) ≡ Some ids.items) }
{
    let Some(list) = value.get("tombstones") else {
        return Ok(Vec::new(alloc));
    };
    let Some(values) = list.as_array() else {
        unreachable!()
    };
    tombstone_list(alloc, values)
}

// The name of a node.
fn name_of(alloc: Global, value: &Value) -> Result<Name, AllocError>
    requires { IsSome (name_at (view value.now)) }
    ensures { IfOk result (λ name. name_at (view value.now) ≡ Some name) }
{
    let Some(text) = name_field(value) else {
        unreachable!()
    };
    match Name::new(alloc, text) {
        Ok(name) => Ok(name),
        Err(IdFault::BadName) => unreachable!(),
        Err(_) => Err(AllocError),
    }
}

// A copy of a text, where there is one.
fn copied(alloc: Global, text: Option<&str>) -> Result<Option<String>, AllocError>
    ensures { IfOk result (λ copy. option_map string_bytes copy ≡ option_map (λ s. s.now) text.entry) }
{
    match text {
        Some(text) => Ok(Some(String::from_str(alloc, text)?)),
        None => Ok(None),
    }
}

// The addresses of a server, which listens at its address where it says no other.
fn addresses_of(
    alloc: Global,
    address: &str,
    listen: Option<&str>,
    status: Option<&str>,
) -> Result<Addresses, AllocError>
    ensures { IfOk result (λ addresses. addresses ≡ addresses_of address.now (option_map (λ s. s.now) listen.entry) (option_map (λ s. s.now) status.entry)) }
{
    let listen = String::from_str(alloc, listen.unwrap_or(address))?;
    let address = String::from_str(alloc, address)?;
    let status = copied(alloc, status)?;
    Ok(Addresses {
        address,
        listen,
        status,
    })
}

// A node.
#[tactic(auto, using(crate::proofs::PartLemmas::name_reads, crate::proofs::PartLemmas::loads_read, crate::proofs::PartLemmas::tombstones_read, crate::proofs::PartLemmas::watch_read, crate::proofs::PartLemmas::status_read, crate::proofs::PartLemmas::listen_read, crate::proofs::PartLemmas::threads_read), unfolding(crate::specs::Configs::node_at))]
fn node_of(alloc: Global, value: &Value, network: bool) -> Result<NodeConfig, AllocError>
    requires { IsSome (node_at network (view value.now)) }
    ensures { IfOk result (λ node. node_at network (view value.now) ≡ Some node) }
{
    let name = name_of(alloc, value)?;
    let Some(address) = address_field(value, network) else {
        unreachable!()
    };
    let Some(folder) = text_field(value, "folder") else {
        unreachable!()
    };
    let loads = loads_of(alloc, value)?;
    let tombstones = tombstones_of(alloc, value)?;
    let Some(workers) = some_field(value, "workers", MAX_WORKERS) else {
        unreachable!()
    };
    let Some(watch) = rest_field(value, "watch") else {
        unreachable!()
    };
    let Some(status) = another_field(value, "status", network) else {
        unreachable!()
    };
    let Some(front) = front_field(value) else {
        unreachable!()
    };
    let Some(listen) = another_field(value, "listen", network) else {
        unreachable!()
    };
    let Some(threads) = threads_field(value) else {
        unreachable!()
    };
    let addresses = addresses_of(alloc, address, listen, status)?;
    let folder = String::from_str(alloc, folder)?;
    Ok(NodeConfig::new(
        name, addresses, folder, loads, tombstones, workers, watch, front, threads,
    ))
}

// A broker.
#[tactic(auto, unfolding(crate::specs::Configs::broker_at))]
fn broker_of(alloc: Global, value: &Value, network: bool) -> Result<BrokerConfig, AllocError>
    requires { IsSome (broker_at network (view value.now)) }
    ensures { IfOk result (λ broker. broker_at network (view value.now) ≡ Some broker) }
{
    let Some(address) = address_field(value, network) else {
        unreachable!()
    };
    let Some(workers) = some_field(value, "workers", MAX_WORKERS) else {
        unreachable!()
    };
    let Some(status) = another_field(value, "status", network) else {
        unreachable!()
    };
    let Some(front) = front_field(value) else {
        unreachable!()
    };
    let Some(listen) = another_field(value, "listen", network) else {
        unreachable!()
    };
    let addresses = addresses_of(alloc, address, listen, status)?;
    Ok(BrokerConfig::new(addresses, workers, front))
}

// A query to one of so many brokers.
#[tactic(auto, unfolding(crate::specs::Configs::query_at))]
fn query_of(alloc: Global, value: &Value, brokers: usize) -> Result<QueryConfig, AllocError>
    requires reads { IsSome (query_at brokers (view value.now)) }
    requires shallow { depth (view value.now) ≤ max_depth }
    ensures { IfOk result (λ query. query_at brokers (view value.now) ≡ Some (asked_of query)) }
{
    let Some(broker) = place_field(value, brokers) else {
        unreachable!()
    };
    let Some(query) = object_field(value) else {
        unreachable!()
    };
    let text = query.to_string(alloc)?;
    Ok(QueryConfig::new(broker, text))
}

// The nodes that values are.
fn node_list(alloc: Global, values: &[Value], network: bool) -> Result<Vec<NodeConfig>, AllocError>
    requires { IsSome (each_of (node_at network) (items_view values.now)) }
    ensures { IfOk result (λ nodes. each_of (node_at network) (items_view values.now) ≡ Some nodes.items) }
{
    let mut nodes = Vec::with_capacity(alloc, values.len())?;
    for value in values {
        nodes.push(node_of(alloc, value, network)?)?;
    }
    Ok(nodes)
}

// The brokers that values are.
fn broker_list(
    alloc: Global,
    values: &[Value],
    network: bool,
) -> Result<Vec<BrokerConfig>, AllocError>
    requires { IsSome (each_of (broker_at network) (items_view values.now)) }
    ensures { IfOk result (λ brokers. each_of (broker_at network) (items_view values.now) ≡ Some brokers.items) }
{
    let mut brokers = Vec::with_capacity(alloc, values.len())?;
    for value in values {
        brokers.push(broker_of(alloc, value, network)?)?;
    }
    Ok(brokers)
}

// The queries that values are, to so many brokers.
fn query_list(
    alloc: Global,
    values: &[Value],
    brokers: usize,
) -> Result<Vec<QueryConfig>, AllocError>
    requires reads { IsSome (each_of (query_at brokers) (items_view values.now)) }
    requires shallow { items_depth (items_view values.now) ≤ max_depth }
    ensures { IfOk result (λ queries. each_of (query_at brokers) (items_view values.now)
        ≡ Some (map asked_of queries.items)) }
{
    let mut queries = Vec::with_capacity(alloc, values.len())?;
    for value in values {
        queries.push(query_of(alloc, value, brokers)?)?;
    }
    Ok(queries)
}

// The nodes.
#[tactic(auto, using(crate::proofs::FormLemmas::nodes_listed, crate::proofs::FormLemmas::nodes_list_reads))]
fn nodes_of(alloc: Global, value: &Value, network: bool) -> Result<Vec<NodeConfig>, AllocError>
    requires { IsSome (nodes_at network (view value.now)) }
    ensures { IfOk result (λ nodes. nodes_at network (view value.now) ≡ Some nodes.items) }
{
    let Some(values) = list_field(value, "nodes") else {
        unreachable!()
    };
    node_list(alloc, values, network)
}

// The brokers.
#[tactic(auto, using(crate::proofs::FormLemmas::brokers_listed, crate::proofs::FormLemmas::brokers_list_reads))]
fn brokers_of(alloc: Global, value: &Value, network: bool) -> Result<Vec<BrokerConfig>, AllocError>
    requires { IsSome (brokers_at network (view value.now)) }
    ensures { IfOk result (λ brokers. brokers_at network (view value.now) ≡ Some brokers.items) }
{
    let Some(values) = list_field(value, "brokers") else {
        unreachable!()
    };
    broker_list(alloc, values, network)
}

// The queries to so many brokers.
#[tactic(auto, using(crate::proofs::DepthLemmas::queries_shallow))]
fn queries_of(alloc: Global, value: &Value, brokers: usize) -> Result<Vec<QueryConfig>, AllocError>
    requires reads { IsSome (queries_at brokers (view value.now)) }
    requires shallow { depth (view value.now) ≤ max_depth }
    ensures { IfOk result (λ queries. queries_at brokers (view value.now) ≡ Some (map asked_of queries.items)) }
{
    let Some(values) = list_field(value, "queries") else {
        unreachable!()
    };
    query_list(alloc, values, brokers)
}

// What the cluster does.
#[tactic(auto, using(crate::proofs::PartLemmas::connections_read, crate::proofs::PartLemmas::kept_read, crate::proofs::PartLemmas::turns_read, crate::proofs::PartLemmas::every_read, crate::proofs::PartLemmas::patience_read, crate::proofs::PartLemmas::network_read), unfolding(crate::specs::Configs::settings_at))]
pub(crate) fn settings_of(value: &Value) -> Settings
    requires { IsSome (settings_at (view value.now)) }
    ensures { settings_at (view value.now) ≡ Some result }
{
    let Some(connections) = connections_field(value) else {
        unreachable!()
    };
    let Some(kept) = some_field(value, "kept", MAX_KEPT) else {
        unreachable!()
    };
    let Some(turns) = count_field(value, "turns") else {
        unreachable!()
    };
    let Some(every) = rest_field(value, "every") else {
        unreachable!()
    };
    let Some(patience) = patience_field(value) else {
        unreachable!()
    };
    let Some(network) = network_field(value) else {
        unreachable!()
    };
    Settings {
        connections,
        kept,
        turns,
        every,
        patience,
        network,
        endless: is_endless(value),
    }
}

// The config that a value is.
#[tactic(auto, using(crate::proofs::PartLemmas::settings_read, crate::proofs::PartLemmas::nodes_read, crate::proofs::PartLemmas::brokers_read, crate::proofs::PartLemmas::queries_read), unfolding(crate::specs::Configs::servers_at))]
pub(crate) fn build_config(alloc: Global, value: &Value) -> Result<Config, AllocError>
    requires reads { IsSome (config_at (view value.now)) }
    requires shallow { depth (view value.now) ≤ max_depth }
    ensures { IfOk result (λ config. config_at (view value.now) ≡ Some (reported_of config)) }
{
    let settings = settings_of(value);
    let nodes = nodes_of(alloc, value, settings.network)?;
    let brokers = brokers_of(alloc, value, settings.network)?;
    let queries = queries_of(alloc, value, brokers.len())?;
    Ok(Config::new(nodes, brokers, queries, settings))
}
