//! What no contract says of segment files, of the folders that keep them, of messages and of links, of front threads, of what servers
//! count and of what is logged: worked examples, devices and calls of the system that fail, printed texts, slow clients, queues that are
//! full, and that calls succeed with ample memory. `folder`, `health`, `incarnation`, `link`, `message`, `rows`, `segfile`, `store`,
//! `stream` and `wire` have the names of the crates that they test; `columns` is of `druid_segment_file`, `serving` of
//! `druid_http_wire`, `tcp_links` and `tcp_double` of `druid_link`, `store_double` and `two_folders` of `druid_folder_store`, `front`,
//! `slow` and `standing` of `druid_serve_front`, `metrics` of `druid_telemetry_metrics`, and `log` of `druid_telemetry_log`.
#![tactic(auto)]

#[cfg(test)]
mod columns;
#[cfg(test)]
mod devices;
#[cfg(test)]
mod folder;
#[cfg(test)]
mod front;
#[cfg(test)]
mod health;
#[cfg(test)]
mod incarnation;
#[cfg(test)]
mod kinds;
#[cfg(test)]
mod link;
#[cfg(test)]
mod log;
#[cfg(test)]
mod message;
#[cfg(test)]
mod metrics;
#[cfg(test)]
mod printed;
#[cfg(test)]
mod requests;
#[cfg(test)]
mod rows;
#[cfg(test)]
mod segfile;
#[cfg(test)]
mod slow;
#[cfg(test)]
mod socket_front;
#[cfg(test)]
mod store;
#[cfg(test)]
mod store_double;
#[cfg(test)]
mod stream;
#[cfg(test)]
mod table;
#[cfg(test)]
mod tcp_double;
#[cfg(test)]
mod tcp_links;
#[cfg(test)]
mod two_folders;
#[cfg(test)]
mod wire;
