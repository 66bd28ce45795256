//! What no contract says of a cluster that is served: worked examples over sockets of this machine and folders of the system,
//! configs and folders that are refused, and that calls succeed with ample memory.
#![tactic(auto)]

#[cfg(test)]
mod config;
#[cfg(test)]
mod fault_lines;
#[cfg(test)]
mod file_loads;
#[cfg(test)]
mod folders;
#[cfg(test)]
mod fronts;
#[cfg(test)]
mod host;
#[cfg(test)]
mod listen_addresses;
#[cfg(test)]
mod live_clusters;
#[cfg(test)]
mod many_nodes;
#[cfg(test)]
mod operator;
#[cfg(test)]
mod oversize;
#[cfg(test)]
mod relay;
#[cfg(test)]
mod replicas;
#[cfg(test)]
mod serve;
#[cfg(test)]
mod serve_node;
#[cfg(test)]
mod started;
#[cfg(test)]
mod words;
#[cfg(test)]
mod workers;
