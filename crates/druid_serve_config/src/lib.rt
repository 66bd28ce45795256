//! The config of a cluster, read out of JSON.
#![tactic(auto)]

mod address;
mod bad_field;
mod builder;
mod config;
mod fault;
mod field_rules;
mod fields;
mod laws;
mod limits;
mod part;
mod reader;

pub use bad_field::{AddressRule, BadField, BrokerRule, NodeRule, QueryRule, WholeRule};
pub use config::{BrokerConfig, Config, NodeConfig, QueryConfig, names_in};
pub use fault::ConfigFault;
pub use field_rules::bad_field_of;
pub use laws::{addresses_name_hosts, addresses_name_ports, configs_are_within_limits};
pub use limits::{
    MAX_COUNT, MAX_KEPT, MAX_PATIENCE, MAX_PORT, MAX_REST, MAX_SERVERS, MAX_THREADS, MAX_WORKERS,
    USUAL_PATIENCE,
};
pub use part::Part;
pub use reader::{bad_field_in, config_of, read_config};
