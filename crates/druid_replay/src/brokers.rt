//! The brokers of a script.
ghost use Rattle.std.specs.Prelude.{◌≡◌, ◌<◌, IfOk, OnErr, Some, length, replicate, slice_get, slice_set};
ghost use Rattle.serde_json.specs.View.{view};
ghost use Rattle.druid_replay.specs.Commands as commands;
ghost use Rattle.druid_replay.specs.Execution.{CommandWants, Does};

use crate::answer::CommandAnswer;
use crate::execution::step;
use druid_inventory::Inventory;
use serde_json::Value;
use std::alloc::{AllocError, Global};
use std::marker::Model;

/// Brokers, each with its inventory. They count from 0. A contract sees a list of inventories.
#[derive(Debug, Drop)]
pub struct Brokers {
    inventories: Vec<Inventory>,
}

impl Model for Brokers {
    ghost use Rattle.std.specs.Prelude.{List};
    ghost use Rattle.druid_inventory.specs.Entry.{Entry};

    ghost Value = { List (List Entry) };

    ghost view = { λ a. a.inventories.items };
}

impl Brokers {
    /// That many brokers, each with this inventory.
    pub fn new(alloc: Global, inventory: &Inventory, count: u64) -> Result<Brokers, AllocError>
        ensures { IfOk result (λ brokers. brokers ≡ replicate count inventory.now) }
    {
        let mut inventories = Vec::with_capacity(alloc, count as usize)?;
        for _ in 0..count {
            inventories.push(inventory.clone()?)?;
        }
        Ok(Brokers { inventories })
    }

    /// How many there are.
    pub fn count(&self) -> u64
        ensures { result ≡ length self.now }
    {
        self.inventories.len() as u64
    }

    /// The inventory of a broker.
    pub fn inventory(&self, broker: u64) -> &Inventory
        requires { broker < length self.now }
        ensures { slice_get self.now broker ≡ Some result.now }
    {
        &self.inventories[broker as usize]
    }

    // A broker takes a reply of a node in place: what is answered. Where that fails all stays.
    pub(crate) fn step(
        &mut self,
        alloc: Global,
        broker: u64,
        node: u16,
        value: &Value,
    ) -> Result<CommandAnswer, AllocError>
        requires { broker < length self.old }
        ensures ok { IfOk result (λ answer.
            Does self.old (commands.reply broker node (view value.now)) answer self.new) }
        ensures memory { OnErr result (CommandWants self.old (commands.reply broker node (view value.now))) }
    {
        let inventory = &mut self.inventories[broker as usize];
        step(alloc, inventory, node, value)
    }

    /// The brokers, of which one has another inventory.
    pub fn with(mut self, broker: u64, inventory: Inventory) -> Brokers
        requires { broker < length self }
        ensures { result ≡ slice_set self broker inventory }
    {
        self.inventories[broker as usize] = inventory;
        self
    }
}
