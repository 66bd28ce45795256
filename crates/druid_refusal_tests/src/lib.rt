//! Each call that may run out of memory, made once between two marks: with ample memory it gives its value, and where a program that is
//! loaded before refuses one of its allocations (`tests/refuse`) it answers out of memory and leaves its value as it was.
#![tactic(auto)]

#[cfg(test)]
mod brokers;
#[cfg(test)]
mod configs;
#[cfg(test)]
mod data;
#[cfg(test)]
mod devices;
#[cfg(test)]
mod files;
#[cfg(test)]
mod fronts;
#[cfg(test)]
mod marks;
#[cfg(test)]
mod nodes;
#[cfg(test)]
mod published;
#[cfg(test)]
mod replies;
#[cfg(test)]
mod starts;
#[cfg(test)]
mod telemetry;
#[cfg(test)]
mod texts;
#[cfg(test)]
mod values;
#[cfg(test)]
mod visible;
