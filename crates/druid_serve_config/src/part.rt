//! Which servers of a cluster a process starts.
ghost use Rattle.std.specs.Prelude.{◌≡◌, None, Some, true, false, IfOk, MatchOption, bytes_eq, map};
ghost use Rattle.std.specs.List.{list_any, list_all};
ghost use Rattle.druid_serve_config.specs.Parts.{words_of, broker_named, is_at, is_below, is_known, is_part, has_node, has_broker};

use crate::{Config, NodeConfig};
use druid_base::number_of;
use std::alloc::{AllocError, Global};
use std::marker::Model;

/// The servers of a cluster that a process starts. A contract sees the words that name them, or None where all are meant.
#[derive(Debug, Drop)]
pub struct Part<'a> {
    words: Option<Vec<&'a str>>,
}

impl<'a> Model for Part<'a> {
    ghost use Rattle.std.specs.Prelude.{ℕ, List, Option, map, option_map};

    ghost Value = { Option (List (List ℕ)) };

    ghost view = { λ a. option_map (λ words. map (λ word. word.now) words.items) a.words };
}

// The place of the broker that a word names.
fn broker_named(word: &str) -> Option<u64>
    ensures { result ≡ broker_named word.now }
{
    number_of(word.as_bytes().strip_prefix(b"broker:")?)
}

// Whether it names the broker at a place.
fn is_at(place: usize, named: Option<u64>) -> bool
    ensures { result ≡ is_at place named }
{
    match named {
        Some(named) => named == place as u64,
        None => false,
    }
}

// Whether it names one of so many brokers.
fn is_below(count: usize, named: Option<u64>) -> bool
    ensures { result ≡ is_below count named }
{
    match named {
        Some(place) => place < count as u64,
        None => false,
    }
}

// Whether a word is the name of a node.
fn is_named(node: &NodeConfig, word: &str) -> bool
    ensures { result ≡ bytes_eq node.now.name word.now }
{
    node.name().as_str() == word
}

// Whether a word is the name of one of these nodes.
fn names_node(nodes: &[NodeConfig], word: &str) -> bool
    ensures { result ≡ list_any (λ n. bytes_eq n.name word.now) nodes.now }
{
    nodes.iter().any(|node| is_named(node, word))
}

// Whether a word names a node or a broker of a config.
fn is_known(config: &Config, word: &str) -> bool
    ensures { result ≡ is_known config.now.nodes config.now.brokers word.now }
{
    names_node(config.nodes(), word) || is_below(config.brokers().len(), broker_named(word))
}

// Whether each of these words does.
fn are_known(config: &Config, words: &[&str]) -> bool
    ensures { result ≡ list_all (λ word. is_known config.now.nodes config.now.brokers word.now) words.now }
{
    words.iter().all(|word| is_known(config, word))
}

// Whether one of these words is the name of a node.
fn have_node(words: &[&str], node: &NodeConfig) -> bool
    ensures { result ≡ list_any (λ word. bytes_eq node.now.name word.now) words.now }
{
    words.iter().any(|word| is_named(node, word))
}

// Whether one of these words names the broker at a place.
fn have_broker(words: &[&str], place: usize) -> bool
    ensures { result ≡ list_any (λ word. is_at place (broker_named word.now)) words.now }
{
    words.iter().any(|word| is_at(place, broker_named(word)))
}

// The words of a text.
fn words_of<'a>(alloc: Global, text: &'a str) -> Result<Vec<&'a str>, AllocError>
    ensures { IfOk result (λ words. map (λ word. word.now) words.items ≡ words_of text.now) }
{
    text.split(',').collect(alloc)
}

impl<'a> Part<'a> {
    /// All servers.
    pub fn whole() -> Part<'a>
        ensures { result ≡ None }
    {
        Part { words: None }
    }

    /// The servers that a text names: names of nodes, and `broker:` with the place of a broker, which count from 0, with commas
    /// between. None where one of these names no server of the config.
    ///
    /// # Errors
    ///
    /// Out of memory.
    pub fn named(
        alloc: Global,
        config: &Config,
        text: &'a str,
    ) -> Result<Option<Part<'a>>, AllocError>
        ensures { IfOk result (λ part. MatchOption part (is_part config.now.nodes config.now.brokers text.now ≡ false)
            (λ p. (p ≡ Some (words_of text.now)) × (is_part config.now.nodes config.now.brokers text.now ≡ true))) }
    {
        let words = words_of(alloc, text)?;
        if are_known(config, &words) {
            Ok(Some(Part { words: Some(words) }))
        } else {
            Ok(None)
        }
    }

    /// Whether it has a node.
    pub fn has_node(&self, node: &NodeConfig) -> bool
        ensures { result ≡ has_node self.now node.now }
    {
        match &self.words {
            Some(words) => have_node(words, node),
            None => true,
        }
    }

    /// Whether it has the broker at a place.
    pub fn has_broker(&self, place: usize) -> bool
        ensures { result ≡ has_broker self.now place }
    {
        match &self.words {
            Some(words) => have_broker(words, place),
            None => true,
        }
    }
}
