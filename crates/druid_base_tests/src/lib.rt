//! What no contract says of the crates from instants to inventories, of `replay` and of `druid_laws_world`: worked examples and
//! runs, printed texts, devices that fail, that calls succeed with ample memory, and drawn runs against a plain replay. A
//! module has the name of the crate that it tests; `devices`, `explaining`, `following` and `joining` are of `replay`,
//! `drawn` is of `druid_laws_world`, `edits` and `edit_bound` are of `druid_timeline`, and `sweeps` of `druid_inventory`.
#![tactic(auto)]

#[cfg(test)]
mod base;
#[cfg(test)]
mod changes;
#[cfg(test)]
mod chunks;
#[cfg(test)]
mod cluster;
#[cfg(test)]
mod devices;
#[cfg(test)]
mod drawn;
#[cfg(test)]
mod edit_bound;
#[cfg(test)]
mod edits;
#[cfg(test)]
mod inventory;
#[cfg(test)]
mod joins;
#[cfg(test)]
mod members;
#[cfg(test)]
mod pages;
#[cfg(test)]
mod replies_followed;
#[cfg(test)]
mod rows;
#[cfg(test)]
mod run_end;
#[cfg(test)]
mod script;
#[cfg(test)]
mod segid;
#[cfg(test)]
mod shard;
#[cfg(test)]
mod sizes;
#[cfg(test)]
mod sweeps;
#[cfg(test)]
mod sync;
#[cfg(test)]
mod tables;
#[cfg(test)]
mod time;
#[cfg(test)]
mod timeline;
#[cfg(test)]
mod world;
