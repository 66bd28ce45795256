//! Which field of JSON is wrong, so that it is no config, found without allocating.
ghost use Rattle.std.specs.Prelude.{◌≡◌, ◌+◌, ◌<◌, ℕ, [], Some, IfSome, IfErr, true, codes, is_some, is_none, option_map, length};
ghost use Rattle.std.specs.List.{list_all};
ghost use Rattle.std.specs.Result.{result_ok};
ghost use Rattle.serde_json.specs.Data.{Data, Items};
ghost use Rattle.serde_json.specs.View.{view, items_view};
ghost use Rattle.serde_json.specs.Find.{get_item};
ghost use Rattle.druid_base.specs.Fields.{list_at};
ghost use Rattle.druid_serve_config.specs.BadFields.{BreaksNode, BreaksBroker, BreaksQuery, BreaksWhole, IsWrong, rule_of};
ghost use Rattle.druid_serve_config.specs.Configs.{Broker, name_at, loads_at, tombstone_at, tombstones_at, node_at, broker_at, query_at, are_few, nodes_in, brokers_in, nodes_at, brokers_at, queries_at, network_at, settings_at, servers_at, config_at};
ghost use Rattle.druid_serve_config.specs.Borrowed.{text_or, names_in};

use crate::bad_field::{AddressRule, BadField, BrokerRule, NodeRule, QueryRule, WholeRule};
use crate::builder::settings_of;
use crate::config::Settings;
use crate::fields::{
    address_field, another_field, chunk_field, connections_field, count_field, front_field,
    name_field, network_field, object_field, patience_field, place_field, rest_field, some_field,
    threads_field,
};
use crate::limits::{MAX_KEPT, MAX_SERVERS, MAX_WORKERS};
use druid_base::{TextList, are_texts, doubled_text, list_field, text_field};
use serde_json::Value;

// Whether the files that a node loads are named.
#[tactic(auto, using(crate::proofs::FormLemmas::texts_judged))]
fn has_loads(value: &Value) -> bool
    ensures { result ≡ is_some (loads_at (view value.now)) }
{
    match list_field(value, "loads") {
        Some(values) => are_texts(values),
        None => false,
    }
}

// Whether each value names the chunk of a tombstone.
fn are_chunks(values: &[Value]) -> bool
    ensures { result ≡ list_all (λ value. is_some (tombstone_at (view value))) values.now }
{
    values.iter().all(|value| chunk_field(value).is_some())
}

// Whether the tombstones that a node places are named, or it places none.
#[tactic(auto, using(crate::proofs::FormLemmas::chunks_judged))]
fn has_tombstones(value: &Value) -> bool
    ensures { result ≡ is_some (tombstones_at (view value.now)) }
{
    let Some(list) = value.get("tombstones") else {
        return true;
    };
    match list.as_array() {
        Some(values) => are_chunks(values),
        None => false,
    }
}

// What an address has to be.
fn rule_of(network: bool) -> AddressRule
    ensures { result ≡ rule_of network }
{
    if network {
        AddressRule::Network
    } else {
        AddressRule::Local
    }
}

// The first field of a value that is no node's.
#[tactic(auto, unfolding(crate::specs::Configs::node_at))]
fn node_rule(value: &Value, network: bool) -> Option<NodeRule>
    ensures test { is_none result ≡ is_some (node_at network (view value.now)) }
    ensures broken { (items : Items) (place : ℕ) → get_item place items ≡ Some (view value.now)
        → IfSome result (λ rule. BreaksNode network items place rule) }
{
    if name_field(value).is_none() {
        return Some(NodeRule::Name);
    }
    if address_field(value, network).is_none() {
        return Some(NodeRule::Address(rule_of(network)));
    }
    if text_field(value, "folder").is_none() {
        return Some(NodeRule::Folder);
    }
    if !has_loads(value) {
        return Some(NodeRule::Loads);
    }
    if !has_tombstones(value) {
        return Some(NodeRule::Tombstones);
    }
    if some_field(value, "workers", MAX_WORKERS).is_none() {
        return Some(NodeRule::Workers);
    }
    if rest_field(value, "watch").is_none() {
        return Some(NodeRule::Watch);
    }
    if another_field(value, "status", network).is_none() {
        return Some(NodeRule::Status(rule_of(network)));
    }
    if front_field(value).is_none() {
        return Some(NodeRule::Front);
    }
    if another_field(value, "listen", network).is_none() {
        return Some(NodeRule::Listen(rule_of(network)));
    }
    if threads_field(value).is_none() {
        return Some(NodeRule::Threads);
    }
    None
}

// The first field of a value that is no broker's.
#[tactic(auto, unfolding(crate::specs::Configs::broker_at))]
fn broker_rule(value: &Value, network: bool) -> Option<BrokerRule>
    ensures test { is_none result ≡ is_some (broker_at network (view value.now)) }
    ensures broken { (items : Items) (place : ℕ) → get_item place items ≡ Some (view value.now)
        → IfSome result (λ rule. BreaksBroker network items place rule) }
{
    if address_field(value, network).is_none() {
        return Some(BrokerRule::Address(rule_of(network)));
    }
    if some_field(value, "workers", MAX_WORKERS).is_none() {
        return Some(BrokerRule::Workers);
    }
    if another_field(value, "status", network).is_none() {
        return Some(BrokerRule::Status(rule_of(network)));
    }
    if front_field(value).is_none() {
        return Some(BrokerRule::Front);
    }
    if another_field(value, "listen", network).is_none() {
        return Some(BrokerRule::Listen(rule_of(network)));
    }
    None
}

// The first field of a value that is not one of a query to one of so many brokers.
#[tactic(auto, unfolding(crate::specs::Configs::query_at))]
fn query_rule(value: &Value, brokers: usize) -> Option<QueryRule>
    ensures test { is_none result ≡ is_some (query_at brokers (view value.now)) }
    ensures broken { (items : Items) (place : ℕ) → get_item place items ≡ Some (view value.now)
        → IfSome result (λ rule. BreaksQuery brokers items place rule) }
{
    if place_field(value, brokers).is_none() {
        return Some(QueryRule::Broker);
    }
    if object_field(value).is_none() {
        return Some(QueryRule::Query);
    }
    None
}

// The name of a node, empty where it has none.
fn name_of(value: &Value) -> &str
    ensures { result.now ≡ text_or (name_at (view value.now)) }
{
    match name_field(value) {
        Some(name) => name,
        None => "",
    }
}

// The names of nodes.
#[derive(Drop)]
struct NodeNames<'a> {
    nodes: &'a [Value],
}

impl TextList for NodeNames<'_> {
    ghost texts = { λ names. names_in names.nodes.now };

    fn count(&self) -> usize {
        self.nodes.len()
    }

    fn text(&self, place: usize) -> &str {
        name_of(&self.nodes[place])
    }
}

// Whether there may be so many servers.
fn are_few(count: usize) -> bool
    ensures { result ≡ are_few count }
{
    1 <= count && count <= MAX_SERVERS
}

// The first value that is no node, and its first field that is not.
fn bad_node(values: &[Value], network: bool) -> Option<(usize, NodeRule)>
    ensures test { is_none result ≡ list_all (λ value. is_some (node_at network (view value))) values.now }
    ensures broken { IfSome result (λ r. BreaksNode network (items_view values.now) r.0 r.1) }
{
    for place in 0..values.len() {
        if let Some(rule) = node_rule(&values[place], network) {
            return Some((place, rule));
        }
    }
    None
}

// What is wrong with values that are not the nodes of a cluster.
#[tactic(auto, using(crate::proofs::FormLemmas::nodes_none, crate::proofs::FormLemmas::nodes_many, crate::proofs::FormLemmas::nodes_few, crate::proofs::BadLemmas::nodes_counted, crate::proofs::BadLemmas::name_twice))]
fn bad_in_nodes(values: &[Value], network: bool) -> Option<BadField>
    ensures test { is_none result ≡ is_some (nodes_in network (items_view values.now)) }
    ensures wrong { (d : Data) → network_at d ≡ Some network → list_at (codes "nodes") d ≡ Some (items_view values.now)
        → IfSome result (λ bad. IsWrong bad d) }
{
    if let Some((place, rule)) = bad_node(values, network) {
        return Some(BadField::Node(place, rule));
    }
    if !are_few(values.len()) {
        return Some(BadField::Whole(WholeRule::NodeCount));
    }
    match doubled_text(&NodeNames { nodes: values }) {
        Some(place) => Some(BadField::Node(place, NodeRule::OwnName)),
        None => None,
    }
}

// The first value that is no broker, and its first field that is not.
fn bad_broker(values: &[Value], network: bool) -> Option<(usize, BrokerRule)>
    ensures test { is_none result ≡ list_all (λ value. is_some (broker_at network (view value))) values.now }
    ensures broken { IfSome result (λ r. BreaksBroker network (items_view values.now) r.0 r.1) }
{
    for place in 0..values.len() {
        if let Some(rule) = broker_rule(&values[place], network) {
            return Some((place, rule));
        }
    }
    None
}

// What is wrong with values that are not the brokers of a cluster.
#[tactic(auto, using(crate::proofs::FormLemmas::brokers_none, crate::proofs::FormLemmas::brokers_some, crate::proofs::BadLemmas::brokers_other))]
fn bad_in_brokers(values: &[Value], network: bool) -> Option<BadField>
    ensures test { is_none result ≡ is_some (brokers_in network (items_view values.now)) }
    ensures wrong { (d : Data) → network_at d ≡ Some network → list_at (codes "brokers") d ≡ Some (items_view values.now)
        → IfSome result (λ bad. IsWrong bad d) }
{
    if let Some((place, rule)) = bad_broker(values, network) {
        return Some(BadField::Broker(place, rule));
    }
    if !are_few(values.len()) {
        return Some(BadField::Whole(WholeRule::BrokerCount));
    }
    None
}

// The first value that is no query to one of so many brokers, and its first field that is not.
fn bad_query(values: &[Value], brokers: usize) -> Option<(usize, QueryRule)>
    ensures test { is_none result ≡ list_all (λ value. is_some (query_at brokers (view value))) values.now }
    ensures broken { IfSome result (λ r. BreaksQuery brokers (items_view values.now) r.0 r.1) }
{
    for place in 0..values.len() {
        if let Some(rule) = query_rule(&values[place], brokers) {
            return Some((place, rule));
        }
    }
    None
}

// What is wrong with the nodes.
fn wrong_nodes(value: &Value, network: bool) -> Option<BadField>
    ensures test { is_none result ≡ is_some (nodes_at network (view value.now)) }
    ensures wrong { network_at (view value.now) ≡ Some network → IfSome result (λ bad. IsWrong bad (view value.now)) }
{
    match list_field(value, "nodes") {
        Some(values) => bad_in_nodes(values, network),
        None => Some(BadField::Whole(WholeRule::Nodes)),
    }
}

// What is wrong with the queries to so many brokers.
fn wrong_queries(value: &Value, network: bool, brokers: usize) -> Option<BadField>
    ensures test { is_none result ≡ is_some (queries_at brokers (view value.now)) }
    ensures wrong { network_at (view value.now) ≡ Some network → option_map length (brokers_at network (view value.now)) ≡ Some brokers
        → IfSome result (λ bad. IsWrong bad (view value.now)) }
{
    let Some(values) = list_field(value, "queries") else {
        return Some(BadField::Whole(WholeRule::Queries));
    };
    match bad_query(values, brokers) {
        Some((place, rule)) => Some(BadField::Query(place, rule)),
        None => None,
    }
}

// How many brokers there are, or what is wrong with them.
#[tactic(auto, using(crate::proofs::FormLemmas::brokers_counted, crate::proofs::FormLemmas::no_brokers_counted))]
fn count_brokers(value: &Value, network: bool) -> Result<usize, BadField>
    ensures count { result_ok result ≡ option_map length (brokers_at network (view value.now)) }
    ensures wrong { network_at (view value.now) ≡ Some network → IfErr result (λ bad. IsWrong bad (view value.now)) }
{
    let Some(values) = list_field(value, "brokers") else {
        return Err(BadField::Whole(WholeRule::Brokers));
    };
    match bad_in_brokers(values, network) {
        Some(bad) => Err(bad),
        None => Ok(values.len()),
    }
}

// The first field that is wrong of what a cluster does.
#[tactic(auto, unfolding(crate::specs::Configs::settings_at))]
fn settings_rule(value: &Value) -> Option<WholeRule>
    ensures test { is_none result ≡ is_some (settings_at (view value.now)) }
    ensures broken { IfSome result (λ rule. BreaksWhole rule (view value.now)) }
{
    if connections_field(value).is_none() {
        return Some(WholeRule::Connections);
    }
    if some_field(value, "kept", MAX_KEPT).is_none() {
        return Some(WholeRule::Kept);
    }
    if count_field(value, "turns").is_none() {
        return Some(WholeRule::Turns);
    }
    if rest_field(value, "every").is_none() {
        return Some(WholeRule::Every);
    }
    if patience_field(value).is_none() {
        return Some(WholeRule::Patience);
    }
    if network_field(value).is_none() {
        return Some(WholeRule::Network);
    }
    None
}

// What is wrong with the servers and the queries of a cluster that does so.
#[tactic(auto, unfolding(crate::specs::Configs::servers_at))]
fn wrong_servers(value: &Value, settings: &Settings) -> Option<BadField>
    ensures test { is_none result ≡ is_some (servers_at settings.now (view value.now)) }
    ensures wrong { network_at (view value.now) ≡ Some settings.now.network → IfSome result (λ bad. IsWrong bad (view value.now)) }
{
    if let Some(bad) = wrong_nodes(value, settings.network) {
        return Some(bad);
    }
    match count_brokers(value, settings.network) {
        Ok(brokers) => wrong_queries(value, settings.network, brokers),
        Err(bad) => Some(bad),
    }
}

/// The first field of a value that is wrong, in the order `connections`, `kept`, `turns`, `every`,
/// `patience`, `network`, `nodes`, `brokers`, `queries`: None exactly where the value is a config.
/// That it is the first is tested. Does not allocate.
pub fn bad_field_of(value: &Value) -> Option<BadField>
    ensures test { is_none result ≡ is_some (config_at (view value.now)) }
    ensures wrong { IfSome result (λ bad. IsWrong bad (view value.now)) }
{
    if let Some(rule) = settings_rule(value) {
        return Some(BadField::Whole(rule));
    }
    wrong_servers(value, &settings_of(value))
}
