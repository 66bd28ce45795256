//! What no contract says of brokers: worked examples over clusters of data nodes in memory, drawn clusters beside a plain
//! computation over all rows, printed texts, and that calls succeed with ample memory. A module tells what it tests.
#![tactic(auto)]

#[cfg(test)]
mod at_once;
#[cfg(test)]
mod broker;
#[cfg(test)]
mod cluster;
#[cfg(test)]
mod drawn;
#[cfg(test)]
mod entries;
#[cfg(test)]
mod follow;
#[cfg(test)]
mod gate;
#[cfg(test)]
mod hostile_drawn;
#[cfg(test)]
mod hostile_gather;
#[cfg(test)]
mod hostile_turns;
#[cfg(test)]
mod hung_replicas;
#[cfg(test)]
mod limits;
#[cfg(test)]
mod many_pieces;
#[cfg(test)]
mod paged;
#[cfg(test)]
mod plain;
#[cfg(test)]
mod published;
#[cfg(test)]
mod readers;
#[cfg(test)]
mod scatter;
#[cfg(test)]
mod sockets;
#[cfg(test)]
mod tables;
#[cfg(test)]
mod turns;
#[cfg(test)]
mod unread;
#[cfg(test)]
mod watcher;
