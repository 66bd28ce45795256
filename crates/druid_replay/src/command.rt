//! Commands, read out of JSON.
ghost use Rattle.std.specs.Prelude.{◌≡◌, ◌≤◌, length, option_map, is_none, nat_lt, IfErr, IfNone, IfOk, IfSome};
ghost use Rattle.std.specs.Result.{result_ok};
ghost use Rattle.serde_json.specs.Find.{as_str};
ghost use Rattle.serde_json.specs.View.{view, items_view};
ghost use Rattle.druid_inventory.specs.Entry.{max_nodes};
ghost use Rattle.druid_base.specs.Each.{each_of};
ghost use Rattle.druid_replay.specs.Commands.{brokers_at, opening_at, reply_at, lookup_at, marks_at, join_at, equal_at, asked_at, is_among, command_at};
ghost use Rattle.druid_replay.specs.Reasons.{brokers_fault, opening_fault, reply_fault, lookup_fault, join_fault, equal_fault, asked_fault, missing_fault, command_fault};
ghost use Rattle.druid_replay.specs.Seen.{text_in, texts_in, command_seen, opening_seen, AreAmong};

use crate::reason::{BadLine, BrokerKey};
use druid_base::{are_texts, limited_field, list_field, number_field, text_field};
use druid_inventory::MAX_NODES;
use serde_json::Value;

// The most brokers of a script.
const MAX_BROKERS: u64 = 64;

/// The brokers that a script begins with.
#[derive(Clone, Copy)]
pub struct Opening<'a> {
    /// How many there are: 1 to 64.
    pub count: u64,
    /// The names of their nodes, each a text: 1 to 64.
    pub nodes: &'a [Value],
}

/// What a line asks for once brokers stand. Brokers count from 0.
#[derive(Drop)]
pub enum Command<'a> {
    /// That a broker takes the reply of a node.
    Reply {
        /// The broker.
        broker: u64,
        /// The place of the node in the list of names.
        node: u16,
        /// What stands in the place of the reply.
        reply: &'a Value,
    },
    /// The visible pieces of a data source in an interval.
    Lookup {
        /// The broker.
        broker: u64,
        /// The text of the interval.
        interval: &'a str,
        /// The text of the data source's name.
        source: &'a str,
    },
    /// How far a broker has followed each node.
    Marks {
        /// The broker.
        broker: u64,
    },
    /// That a broker becomes the join of itself and another.
    Join {
        /// The other.
        from: u64,
        /// The broker.
        into: u64,
    },
    /// Whether two brokers are equal.
    Equal {
        /// The one.
        left: u64,
        /// The other.
        right: u64,
    },
}

/// The text of a value; an empty one where it is no text.
pub fn text_of(value: &Value) -> &str
    ensures { result.now ≡ text_in value.now }
{
    value.as_str().unwrap_or("")
}

// The same values, where each is a text.
#[tactic(auto, using(crate::proofs::EachTexts::texts_read, crate::proofs::EachTexts::texts_unread))]
fn texts_of(values: &[Value]) -> Option<&[Value]>
    ensures { option_map (λ texts. texts_in texts.now) result
        ≡ each_of as_str (items_view values.now) }
{
    if are_texts(values) {
        Some(values)
    } else {
        None
    }
}

// 1 to 64 brokers, over 1 to 64 names.
#[tactic(auto, unfolding(crate::specs::Commands::brokers_at, crate::specs::Reasons::brokers_fault, crate::specs::Reasons::names_at))]
fn brokers_of(value: &Value) -> Result<Opening<'_>, BadLine>
    ensures value { option_map opening_seen (result_ok result) ≡ brokers_at (view value.now) }
    ensures some { IfOk result (λ opening. 1 ≤ length opening.nodes.now) }
    ensures few { IfOk result (λ opening. length opening.nodes.now ≤ max_nodes) }
    ensures fault { IfErr result (λ bad. bad ≡ brokers_fault (view value.now)) }
{
    let Some(count) = number_field(value, "count") else {
        return Err(BadLine::Count);
    };
    let Some(names) = list_field(value, "nodes") else {
        return Err(BadLine::Nodes);
    };
    let Some(nodes) = texts_of(names) else {
        return Err(BadLine::Nodes);
    };
    if 1 <= count && count <= MAX_BROKERS && 1 <= nodes.len() && nodes.len() <= MAX_NODES {
        Ok(Opening { count, nodes })
    } else {
        Err(BadLine::OutOfRange)
    }
}

/// The brokers that the value asks for: the first command does, and no other. Does not allocate.
#[tactic(auto, unfolding(crate::specs::Commands::opening_at, crate::specs::Reasons::opening_fault))]
pub fn opening_of(value: &Value) -> Result<Opening<'_>, BadLine>
    ensures value { option_map opening_seen (result_ok result) ≡ opening_at (view value.now) }
    ensures some { IfOk result (λ opening. 1 ≤ length opening.nodes.now) }
    ensures few { IfOk result (λ opening. length opening.nodes.now ≤ max_nodes) }
    ensures fault { IfErr result (λ bad. bad ≡ opening_fault (view value.now)) }
{
    if text_field(value, "do") == Some("brokers") {
        brokers_of(value)
    } else {
        Err(BadLine::NotBrokers)
    }
}

// That a broker takes a reply.
#[tactic(auto, unfolding(crate::specs::Commands::reply_at, crate::specs::Reasons::reply_fault))]
fn reply_asked(value: &Value) -> Result<Command<'_>, BadLine>
    ensures value { option_map command_seen (result_ok result) ≡ reply_at (view value.now) }
    ensures fault { IfErr result (λ bad. bad ≡ reply_fault (view value.now)) }
{
    let Some(broker) = number_field(value, "broker") else {
        return Err(BadLine::NoNumber(BrokerKey::Broker));
    };
    let Some(node) = limited_field(value, "node", u16::MAX) else {
        return Err(BadLine::Node);
    };
    let Some(reply) = value.get("reply") else {
        return Err(BadLine::Reply);
    };
    Ok(Command::Reply {
        broker,
        node,
        reply,
    })
}

// A lookup.
#[tactic(auto, unfolding(crate::specs::Commands::lookup_at, crate::specs::Reasons::lookup_fault))]
fn lookup_asked(value: &Value) -> Result<Command<'_>, BadLine>
    ensures value { option_map command_seen (result_ok result) ≡ lookup_at (view value.now) }
    ensures fault { IfErr result (λ bad. bad ≡ lookup_fault (view value.now)) }
{
    let Some(broker) = number_field(value, "broker") else {
        return Err(BadLine::NoNumber(BrokerKey::Broker));
    };
    let Some(interval) = text_field(value, "interval") else {
        return Err(BadLine::Interval);
    };
    let Some(source) = text_field(value, "source") else {
        return Err(BadLine::Source);
    };
    Ok(Command::Lookup {
        broker,
        interval,
        source,
    })
}

// A broker's marks.
#[tactic(auto, unfolding(crate::specs::Commands::marks_at))]
fn marks_asked(value: &Value) -> Result<Command<'_>, BadLine>
    ensures value { option_map command_seen (result_ok result) ≡ marks_at (view value.now) }
    ensures fault { IfErr result (λ bad. bad ≡ BadLine.NoNumber BrokerKey.Broker) }
{
    let Some(broker) = number_field(value, "broker") else {
        return Err(BadLine::NoNumber(BrokerKey::Broker));
    };
    Ok(Command::Marks { broker })
}

// A join.
#[tactic(auto, unfolding(crate::specs::Commands::join_at, crate::specs::Reasons::join_fault))]
fn join_asked(value: &Value) -> Result<Command<'_>, BadLine>
    ensures value { option_map command_seen (result_ok result) ≡ join_at (view value.now) }
    ensures fault { IfErr result (λ bad. bad ≡ join_fault (view value.now)) }
{
    let Some(from) = number_field(value, "from") else {
        return Err(BadLine::NoNumber(BrokerKey::From));
    };
    let Some(into) = number_field(value, "into") else {
        return Err(BadLine::NoNumber(BrokerKey::Into));
    };
    Ok(Command::Join { from, into })
}

// A comparison.
#[tactic(auto, unfolding(crate::specs::Commands::equal_at, crate::specs::Reasons::equal_fault))]
fn equal_asked(value: &Value) -> Result<Command<'_>, BadLine>
    ensures value { option_map command_seen (result_ok result) ≡ equal_at (view value.now) }
    ensures fault { IfErr result (λ bad. bad ≡ equal_fault (view value.now)) }
{
    let Some(left) = number_field(value, "left") else {
        return Err(BadLine::NoNumber(BrokerKey::Left));
    };
    let Some(right) = number_field(value, "right") else {
        return Err(BadLine::NoNumber(BrokerKey::Right));
    };
    Ok(Command::Equal { left, right })
}

// The command that a value asks for, whether its brokers stand or not.
#[tactic(auto, unfolding(crate::specs::Commands::asked_at, crate::specs::Reasons::asked_fault))]
fn command_asked(value: &Value) -> Result<Command<'_>, BadLine>
    ensures value { option_map command_seen (result_ok result) ≡ asked_at (view value.now) }
    ensures fault { IfErr result (λ bad. bad ≡ asked_fault (view value.now)) }
{
    match text_field(value, "do") {
        Some("reply") => reply_asked(value),
        Some("lookup") => lookup_asked(value),
        Some("marks") => marks_asked(value),
        Some("join") => join_asked(value),
        Some("equal") => equal_asked(value),
        _ => Err(BadLine::NoCommand),
    }
}

// The broker at a key, where it is not one of this many.
fn missing(key: BrokerKey, broker: u64, count: u64) -> Option<BadLine>
    ensures test { is_none result ≡ nat_lt broker count }
    ensures fault { IfSome result (λ bad. bad ≡ BadLine.NoBroker key) }
{
    if broker < count {
        None
    } else {
        Some(BadLine::NoBroker(key))
    }
}

// The first broker of a command that is not one of this many that stand.
fn missing_broker(command: &Command<'_>, count: u64) -> Option<BadLine>
    ensures test { is_none result ≡ is_among count (command_seen command.now) }
    ensures among { IfNone result (AreAmong count (command_seen command.now)) }
    ensures fault { IfSome result (λ bad. bad ≡ missing_fault count (command_seen command.now)) }
{
    match command {
        Command::Reply { broker, .. } => missing(BrokerKey::Broker, *broker, count),
        Command::Lookup { broker, .. } => missing(BrokerKey::Broker, *broker, count),
        Command::Marks { broker } => missing(BrokerKey::Broker, *broker, count),
        Command::Join { from, into } => {
            if let Some(bad) = missing(BrokerKey::From, *from, count) {
                return Some(bad);
            }
            missing(BrokerKey::Into, *into, count)
        }
        Command::Equal { left, right } => {
            if let Some(bad) = missing(BrokerKey::Left, *left, count) {
                return Some(bad);
            }
            missing(BrokerKey::Right, *right, count)
        }
    }
}

/// The command that a value asks for once that many brokers stand; where it is none, or of a broker that is not there, the first
/// field that is wrong.
#[tactic(auto, unfolding(crate::specs::Commands::command_at, crate::specs::Reasons::command_fault))]
pub fn command_of(value: &Value, count: u64) -> Result<Command<'_>, BadLine>
    ensures value { option_map command_seen (result_ok result) ≡ command_at count (view value.now) }
    ensures among { IfOk result (λ command. AreAmong count (command_seen command)) }
    ensures fault { IfErr result (λ bad. bad ≡ command_fault count (view value.now)) }
{
    let command = match command_asked(value) {
        Ok(command) => command,
        Err(bad) => return Err(bad),
    };
    match missing_broker(&command, count) {
        Some(bad) => Err(bad),
        None => Ok(command),
    }
}
