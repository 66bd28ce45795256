//! What no contract says of queries, of partials and of data nodes: worked examples over texts, files and messages, printed
//! texts, that calls succeed with ample memory, and drawn queries beside a plain computation (`plain`, with the filters of
//! `condition`). `context` is of `druid_query_context`, `subquery` of `druid_query_text`, `partial` of `druid_partial_scan` too, `answers` of
//! `druid_partial_text`, `node`, `queries`, `columns` and `threads` of `druid_node`, `drawn` of `druid_partial_scan` over files by
//! columns, and `slices` of it over several segments.
#![tactic(auto)]

#[cfg(test)]
mod answers;
#[cfg(test)]
mod asked_text;
#[cfg(test)]
mod columns;
#[cfg(test)]
mod condition;
#[cfg(test)]
mod context;
#[cfg(test)]
mod drawn;
#[cfg(test)]
mod node;
#[cfg(test)]
mod partial;
#[cfg(test)]
mod partial_text;
#[cfg(test)]
mod plain;
#[cfg(test)]
mod printed;
#[cfg(test)]
mod queries;
#[cfg(test)]
mod query;
#[cfg(test)]
mod query_text;
#[cfg(test)]
mod sizes;
#[cfg(test)]
mod slices;
#[cfg(test)]
mod subquery;
#[cfg(test)]
mod threads;
