//! Inventories: `apply` and `join` share what stays, for readers beside them; `advance` edits in
//! place. Equality and the search for conflicts walk what is shared too, since the kit has no
//! `Arc::ptr_eq`.
ghost use Rattle.std.specs.Prelude.{◌≡◌, ◌≢◌, ◌↔◌, ◌⊎◌, ◌≤◌, ◌<◌, ℕ, List, IsTrue, IfOk, IfErr, IfSome, OnOk, OnErr, IsErrOf, IsSome, Err, None, Some, Contains, length, map, option_copied, option_map, slice_get, slice_set, vec_len};
ghost use Rattle.std.specs.Arc.{arc_value};
ghost use Rattle.std.specs.Ordering.{nat_cmp};
ghost use Rattle.std.specs.Cmp.Lexicographic.{slice_cmp};
ghost use Rattle.std.specs.List.Sorted.{IsStrictlySortedBy};
ghost use Rattle.druid_segment_descriptor.specs.Reply.{max_changes, max_segments, AreSorted, IsSnapshot};
ghost use Rattle.druid_segment_descriptor.specs.Described.{Described};
ghost use Rattle.druid_segment_descriptor.specs.Mark.{never};
ghost use Rattle.druid_segment_descriptor.specs.Replay.{replay_from};
ghost use Rattle.druid_segment_descriptor.specs.ReplyBody.{IsReply};
ghost use Rattle.druid_inventory.specs.Entry.{Entry, max_nodes, fresh, ask_of, IsEntryOf, IsAnswerOf, IsUnsynced};
ghost use Rattle.druid_base.specs.Distinct.{AreDistinct};
ghost use Rattle.druid_inventory.specs.Equality.{same_entries, same_entries-per, same_entries-equiv};
ghost use Rattle.druid_inventory.specs.Join.{names_of, later_each, ConflictAt, IsJoin, RefusesJoin, ReportsJoin};
ghost use Rattle.druid_inventory.specs.Step.{StepsAt, RefusedAt, Reports, moved_to};
ghost use Rattle.druid_inventory.specs.declared.fault.ApplyFault.{ApplyFault};
ghost use Rattle.druid_inventory.specs.Moves.{MovesAt};
ghost use Rattle.druid_inventory.specs.Plan.{FitsAt, LeadsAt, IsPlanAt};
ghost use Rattle.druid_inventory.specs.Sources.{HasSource, IsHoldingOf};
ghost use Rattle.druid_inventory.specs.Timelines.{AreTimelinesOf};

use crate::advance::{advance_shared, entry_of, put_entry};
use crate::answer::answer_of;
use crate::join::{are_of_same_nodes, catch_up, first_conflict, has_later};
use crate::known::{KnownNode, copy_of};
use crate::plan::Plan;
use crate::reply_rules::judge;
use crate::timelines::{ChangingTimelines, Timelines, begin_changes, end_changes, names_of};
use crate::{ApplyFault, InventoryFault, JoinFault, Outcome};
use druid_base::{TextList, are_distinct};
use druid_segment_descriptor::{Ask, Body, Change, Descriptor, Mark, NodeNo, Reply};
use druid_segment_id::Name;
use druid_timeline::Timeline;
use std::alloc::{AllocError, Global};
use std::collections::BTreeMap;
use std::marker::Model;
use std::sync::Arc;

/// The most nodes of a list.
pub const MAX_NODES: usize = 64;

/// What a broker knows of each data node, in the order of their list, and the timeline of each data source.
///
/// A contract sees the entries of the nodes. A reply gives a new inventory, which shares with this one what stayed as it
/// was, or is applied in place, where what others share is copied first: no other inventory changes.
#[derive(Debug, Drop)]
pub struct Inventory {
    alloc: Global,
    entries: Arc<Vec<Arc<KnownNode, Global>>, Global>,
    timelines: Arc<Timelines, Global>,
}

impl Model for Inventory {
    ghost use Rattle.std.specs.Prelude.{List, map};
    ghost use Rattle.std.specs.Arc.{arc_value};
    ghost use Rattle.druid_inventory.specs.Entry.{Entry};
    ghost use Rattle.druid_inventory.specs.Timelines.{IsInventory};

    ghost Value = { List Entry };

    ghost view = { λ a. map arc_value (arc_value a.entries).items };

    ghost invariant = { λ a. IsInventory (map arc_value (arc_value a.entries).items) (arc_value a.timelines) };
}

// Names, one after another.
#[derive(Drop)]
struct NameList<'a> {
    names: &'a [Name],
}

impl TextList for NameList<'_> {
    ghost texts = { λ list. list.names.now };

    fn count(&self) -> usize {
        self.names.len()
    }

    fn text(&self, place: usize) -> &str {
        self.names[place].as_str()
    }
}

// The entries of nodes that were never synced.
fn fresh_entries(alloc: Global, names: Vec<Name>) -> Result<Vec<Arc<KnownNode, Global>>, AllocError>
    ensures { IfOk result (λ entries. map arc_value entries.items ≡ map fresh names.items) }
{
    let mut entries = Vec::with_capacity(alloc, names.len())?;
    for name in names {
        entries.push(Arc::new(alloc, KnownNode::fresh(alloc, name))?)?;
    }
    Ok(entries)
}

impl Inventory {
    /// The inventory of a list of nodes, none of which was synced.
    ///
    /// # Errors
    ///
    /// V1; V9 last.
    pub fn new(alloc: Global, names: Vec<Name>) -> Result<Inventory, InventoryFault>
        requires some { 1 ≤ vec_len names }
        requires few { vec_len names ≤ max_nodes }
        ensures ok { IfOk result (λ inventory. inventory ≡ map fresh names.items) }
        ensures own { OnOk result (AreDistinct names.items) }
        ensures doubled { IsErrOf result InventoryFault.DoubledNode ↔ (AreDistinct names.items → ⊥) }
        ensures unknown { result ≢ Err InventoryFault.UnknownNode }
        ensures not_synced { result ≢ Err InventoryFault.NotSynced }
    {
        if !are_distinct(&NameList { names: &names }) {
            return Err(InventoryFault::DoubledNode);
        }
        let entries = fresh_entries(alloc, names)?;
        Ok(Inventory::of(alloc, entries, BTreeMap::new(alloc))?)
    }

    // The inventory of these entries and the timelines over them.
    fn of(
        alloc: Global,
        entries: Vec<Arc<KnownNode, Global>>,
        timelines: Timelines,
    ) -> Result<Inventory, AllocError>
        requires few { vec_len entries ≤ max_nodes }
        requires over { AreTimelinesOf (map arc_value entries.items) timelines }
        ensures { IfOk result (λ inventory. inventory ≡ map arc_value entries.items) }
    {
        Ok(Inventory {
            alloc,
            entries: Arc::new(alloc, entries)?,
            timelines: Arc::new(alloc, timelines)?,
        })
    }

    // The inventory of these entries and the timelines over them, which have changed.
    fn changed(
        alloc: Global,
        entries: Vec<Arc<KnownNode, Global>>,
        timelines: ChangingTimelines,
    ) -> Result<Inventory, AllocError>
        requires few { vec_len entries ≤ max_nodes }
        requires over { AreTimelinesOf (map arc_value entries.items) timelines }
        ensures { IfOk result (λ inventory. inventory ≡ map arc_value entries.items) }
    {
        let timelines = end_changes(alloc, timelines)?;
        Inventory::of(alloc, entries, timelines)
    }

    // The same inventory, which shares all with this one. Does not allocate: one more owner is counted.
    fn share(&self) -> Result<Inventory, AllocError>
        ensures { IfOk result (λ inventory. inventory ≡ self.now) }
    {
        Ok(Inventory {
            alloc: self.alloc,
            entries: Arc::try_clone(&self.entries)?,
            timelines: Arc::try_clone(&self.timelines)?,
        })
    }

    // The entries, shared.
    fn copied_entries(&self) -> Result<Vec<Arc<KnownNode, Global>>, AllocError>
        ensures entries { IfOk result (λ entries. map arc_value entries.items ≡ self.now) }
        ensures few { IfOk result (λ entries. vec_len entries ≤ max_nodes) }
    {
        Vec::clone(&self.entries)
    }

    // The timelines, shared.
    fn copied_timelines(&self) -> Result<Timelines, AllocError>
        ensures { IfOk result (AreTimelinesOf self.now) }
    {
        Timelines::clone(&self.timelines)
    }

    // The timelines, shared, which begin to change.
    fn changing_timelines(&self) -> Result<ChangingTimelines, AllocError>
        ensures { IfOk result (AreTimelinesOf self.now) }
    {
        let timelines = self.copied_timelines()?;
        begin_changes(self.alloc, timelines)
    }

    // The entries, borrowed.
    fn entries(&self) -> &[Arc<KnownNode, Global>]
        ensures value { map arc_value result.now ≡ self.now }
        ensures few { length result.now ≤ max_nodes }
    {
        self.entries.as_slice()
    }

    /// How many nodes the list has. Does not allocate.
    pub fn node_count(&self) -> NodeNo
        ensures value { result ≡ length self.now }
        ensures few { length self.now ≤ max_nodes }
    {
        self.entries().len() as NodeNo
    }

    /// How far a node's history has been followed. Does not allocate.
    ///
    /// # Errors
    ///
    /// None where the list has no such node.
    pub fn mark(&self, node: NodeNo) -> Option<Mark>
        ensures { result ≡ option_map (λ e. e.mark) (slice_get self.now node) }
    {
        let known = self.find(node)?;
        Some(known.mark())
    }

    /// What a node serves at its mark, by identifier. Does not allocate.
    ///
    /// # Errors
    ///
    /// None where the list has no such node.
    pub fn segments(&self, node: NodeNo) -> Option<&[Descriptor]>
        ensures value { option_map (λ set. set.now) result ≡ option_map (λ e. e.set) (slice_get self.now node) }
        ensures sorted { IfSome result (λ set. AreSorted set.now) }
        ensures few { IfSome result (λ set. length set.now ≤ max_segments) }
    {
        let known = self.find(node)?;
        Some(known.set())
    }

    /// The timeline of a data source. Does not allocate.
    ///
    /// # Errors
    ///
    /// None where no node serves a segment of it.
    pub fn timeline(&self, source: &Name) -> Option<&Timeline>
        ensures some { IsSome result ↔ HasSource self.now source.now }
        ensures source { IfSome result (λ timeline. timeline.now.source ≡ source.now) }
        ensures held { IfSome result (λ timeline. IsHoldingOf self.now source.now timeline.now.held) }
    {
        let timeline = self.timelines.get(source)?;
        Some(timeline.as_timeline())
    }

    /// The data sources of which some node serves a segment, rising, each once.
    ///
    /// # Errors
    ///
    /// Out of memory.
    pub fn sources(&self) -> Result<Vec<Name>, AllocError>
        ensures all { IfOk result (λ sources. (source : List ℕ)
            → Contains sources.items source ↔ HasSource self.now source) }
        ensures rising { IfOk result (λ sources. IsStrictlySortedBy (slice_cmp nat_cmp) sources.items) }
    {
        names_of(self.alloc, &self.timelines)
    }

    /// What a reply of a node makes of the inventory, and its outcome. A reset and a page change
    /// nothing. The inventory itself stays.
    ///
    /// # Errors
    ///
    /// A1; then of a delta A3, A2, and A4 or A6 by the first change that offends; of a snapshot A5;
    /// A9 last.
    pub fn apply(&self, node: NodeNo, reply: &Reply) -> Result<(Inventory, Outcome), ApplyFault>
        ensures ok { IfOk result (λ r. (new : Entry) × StepsAt self.now node reply.now r.1 new
            × (r.0 ≡ slice_set self.now node new)) }
        ensures unknown { IsErrOf result ApplyFault.UnknownNode ↔ (slice_get self.now node ≡ None) }
        ensures refused { (fault : ApplyFault) → fault ≢ ApplyFault.UnknownNode → fault ≢ ApplyFault.Memory
            → IsErrOf result fault ↔ RefusedAt self.now node reply.now fault }
        ensures reported { IfErr result (Reports self.now node reply.now) }
    {
        self.step_of(node, reply.body())
    }

    // What a reply of a node makes of the inventory, and its outcome.
    #[tactic(auto, using(crate::proofs::PlanLemmas::memory_is_reported, crate::proofs::PlanLemmas::carried))]
    fn step_of(&self, node: NodeNo, body: &Body) -> Result<(Inventory, Outcome), ApplyFault>
        requires { IsReply body.now }
        ensures ok { IfOk result (λ r. (new : Entry) × StepsAt self.now node body.now r.1 new
            × (r.0 ≡ slice_set self.now node new)) }
        ensures reported { IfErr result (Reports self.now node body.now) }
    {
        let plan = match self.plan_of(node, body) {
            Ok(plan) => plan,
            Err(fault) => return Err(fault),
        };
        let mut inventory = self.share()?;
        inventory.carry_out(node, &plan)?;
        Ok((inventory, plan.outcome()))
    }

    /// Applies a reply of a node in place. What no other inventory shares is edited, and what is
    /// shared is copied first.
    ///
    /// # Errors
    ///
    /// Those of `apply`. Leaves the inventory as it was.
    pub fn advance(&mut self, node: NodeNo, reply: &Reply) -> Result<Outcome, ApplyFault>
        ensures ok { IfOk result (λ outcome. (new : Entry) × StepsAt self.old node reply.now outcome new
            × (self.new ≡ slice_set self.old node new)) }
        ensures err { OnErr result (self.new ≡ self.old) }
        ensures unknown { IsErrOf result ApplyFault.UnknownNode ↔ (slice_get self.old node ≡ None) }
        ensures refused { (fault : ApplyFault) → fault ≢ ApplyFault.UnknownNode → fault ≢ ApplyFault.Memory
            → IsErrOf result fault ↔ RefusedAt self.old node reply.now fault }
        ensures reported { IfErr result (Reports self.old node reply.now) }
    {
        self.step_in_place(node, reply.body())
    }

    // Applies a reply of a node in place, and its outcome.
    #[tactic(auto, using(crate::proofs::PlanLemmas::memory_is_reported, crate::proofs::PlanLemmas::carried))]
    fn step_in_place(&mut self, node: NodeNo, body: &Body) -> Result<Outcome, ApplyFault>
        requires { IsReply body.now }
        ensures ok { IfOk result (λ outcome. (new : Entry) × StepsAt self.old node body.now outcome new
            × (self.new ≡ slice_set self.old node new)) }
        ensures err { OnErr result (self.new ≡ self.old) }
        ensures reported { IfErr result (Reports self.old node body.now) }
    {
        let plan = match self.plan_of(node, body) {
            Ok(plan) => plan,
            Err(fault) => return Err(fault),
        };
        self.carry_out(node, &plan)?;
        Ok(plan.outcome())
    }

    // What a reply of a node makes of its entry, or why it is refused.
    #[tactic(auto, using(crate::proofs::PlanLemmas::refusal_is_reported))]
    fn plan_of<'a>(&self, node: NodeNo, body: &'a Body) -> Result<Plan<'a>, ApplyFault>
        requires { IsReply body.now }
        ensures ok { IfOk result (IsPlanAt self.now node body.now) }
        ensures reported { IfErr result (Reports self.now node body.now) }
    {
        let Some(known) = self.find(node) else {
            return Err(ApplyFault::UnknownNode);
        };
        judge(known, body)
    }

    // Carries out what is planned for the entry of a node: wholly, or not at all.
    fn carry_out(&mut self, node: NodeNo, plan: &Plan<'_>) -> Result<(), AllocError>
        requires { FitsAt plan.now self.old node }
        ensures ok { OnOk result (LeadsAt plan.now self.old self.new node) }
        ensures err { OnErr result (self.new ≡ self.old) }
    {
        match plan {
            Plan::Replay(to, changes) => self.replay(node, *to, changes),
            Plan::Replace(at, segments) => {
                let inventory = self.with_set(node, *at, segments)?;
                *self = inventory;
                Ok(())
            }
            Plan::Stay(_) => Ok(()),
        }
    }

    // Moves the entry of a node to another mark, by changes of its set, in place.
    fn replay(&mut self, node: NodeNo, to: Mark, changes: &[Change]) -> Result<(), AllocError>
        requires incarnation { 1 ≤ to.incarnation }
        requires few { length changes.now ≤ max_changes }
        requires made { (e : Entry) × (slice_get self.old node ≡ Some e)
            × (t : List Described) × (replay_from e.set changes.now ≡ Some t) }
        ensures ok { OnOk result (MovesAt self.old self.new node to changes.now) }
        ensures err { OnErr result (self.new ≡ self.old) }
    {
        advance_shared(
            &mut self.entries,
            &mut self.timelines,
            self.alloc,
            node,
            to,
            changes,
        )
    }

    fn find(&self, node: NodeNo) -> Option<&KnownNode>
        ensures { option_copied result ≡ slice_get self.now node }
    {
        let known = self.entries.get(node as usize)?;
        Some(known)
    }

    // The inventory with another mark and another set for a node. It shares the other entries with this one, and the
    // timelines of the sources on which both sets of the node agree.
    fn with_set(
        &self,
        node: NodeNo,
        at: Mark,
        segments: &[Descriptor],
    ) -> Result<Inventory, AllocError>
        requires node { node < length self.now }
        requires set { IsSnapshot at segments.now }
        ensures { IfOk result (λ inventory. (e : Entry) × (slice_get self.now node ≡ Some e)
            × (inventory ≡ slice_set self.now node (moved_to e at segments.now))) }
    {
        let mut entries = self.copied_entries()?;
        let mut timelines = self.changing_timelines()?;
        let set = copy_of(self.alloc, segments)?;
        let known = entry_of(&entries, node as usize).with_set(at, set)?;
        let entry = Arc::new(self.alloc, known)?;
        put_entry(&mut entries, &mut timelines, self.alloc, node, entry)?;
        Inventory::changed(self.alloc, entries, timelines)
    }

    /// What to ask a node for: all that it serves where it was never synced, and else the changes
    /// after its mark. Does not allocate.
    ///
    /// # Errors
    ///
    /// None where the list has no such node.
    pub fn next_ask(&self, node: NodeNo) -> Option<Ask>
        ensures { result ≡ option_map (λ e. ask_of e.mark) (slice_get self.now node) }
    {
        let mark = self.mark(node)?;
        if mark == Mark::never() {
            Some(Ask::Whole)
        } else {
            Some(Ask::Since(mark))
        }
    }

    // What is known of a node that was synced. V2 where the list has no such node, and V3 where it was never synced.
    fn find_synced(&self, node: NodeNo) -> Result<&KnownNode, InventoryFault>
        ensures ok { IfOk result (λ known. (slice_get self.now node ≡ Some known.now) × (known.now.mark ≢ never)) }
        ensures unknown { IsErrOf result InventoryFault.UnknownNode ↔ (slice_get self.now node ≡ None) }
        ensures not_synced { IsErrOf result InventoryFault.NotSynced ↔ IsUnsynced self.now node }
        ensures no_more { IfErr result (λ fault. (fault ≡ InventoryFault.UnknownNode) ⊎ (fault ≡ InventoryFault.NotSynced)) }
    {
        let Some(known) = self.find(node) else {
            return Err(InventoryFault::UnknownNode);
        };
        if !known.is_synced() {
            return Err(InventoryFault::NotSynced);
        }
        Ok(known)
    }

    /// What is known of a node, as a reply for a broker that knows less: all that the node serves
    /// at its mark.
    ///
    /// # Errors
    ///
    /// V2; then V3; V9 last.
    pub fn entry(&self, node: NodeNo) -> Result<Reply, InventoryFault>
        ensures ok { IfOk result (IsEntryOf self.now node) }
        ensures unknown { IsErrOf result InventoryFault.UnknownNode ↔ (slice_get self.now node ≡ None) }
        ensures not_synced { IsErrOf result InventoryFault.NotSynced ↔ IsUnsynced self.now node }
        ensures doubled { result ≢ Err InventoryFault.DoubledNode }
    {
        let known = self.find_synced(node)?;
        match known.snapshot(self.alloc) {
            Ok(reply) => Ok(reply),
            Err(_) => Err(InventoryFault::Memory),
        }
    }

    /// What is known of a node, as a reply for a broker that asks, and never more than one message
    /// carries. To an ask for all that the node serves, or for changes, it is all that the node
    /// serves at its mark, up to 20,000 segments, and else the first page of that. To an ask for a
    /// page it is that page, where the mark is the node's and there is such a page; else a reset at
    /// the node's mark: of another incarnation where the mark is, and too old in all other cases.
    ///
    /// # Errors
    ///
    /// V2; then V3; V9 last.
    pub fn entry_page(&self, node: NodeNo, ask: &Ask) -> Result<Reply, InventoryFault>
        ensures ok { IfOk result (IsAnswerOf self.now node ask.now) }
        ensures unknown { IsErrOf result InventoryFault.UnknownNode ↔ (slice_get self.now node ≡ None) }
        ensures not_synced { IsErrOf result InventoryFault.NotSynced ↔ IsUnsynced self.now node }
        ensures doubled { result ≢ Err InventoryFault.DoubledNode }
    {
        let known = self.find_synced(node)?;
        match answer_of(known, self.alloc, ask) {
            Ok(reply) => Ok(reply),
            Err(_) => Err(InventoryFault::Memory),
        }
    }

    /// What this inventory and another of the same nodes are together: of each node the entry of
    /// later mark. It shares with both what it takes of them; both stay.
    ///
    /// # Errors
    ///
    /// J1; then J2, with the least such node; J9 last.
    pub fn join(&self, other: &Inventory) -> Result<Inventory, JoinFault>
        ensures ok { IfOk result (IsJoin self.now other.now) }
        ensures other_nodes { IsErrOf result JoinFault.OtherNodes
            ↔ RefusesJoin self.now other.now JoinFault.OtherNodes }
        ensures conflict { (node : ℕ) → IsErrOf result (JoinFault.Conflict node)
            ↔ RefusesJoin self.now other.now (JoinFault.Conflict node) }
        ensures reported { IfErr result (ReportsJoin self.now other.now) }
    {
        self.judged_join(other)
    }

    // What this inventory and another are together, or why there is none.
    fn judged_join(&self, other: &Inventory) -> Result<Inventory, JoinFault>
        ensures ok { IfOk result (IsJoin self.now other.now) }
        ensures reported { IfErr result (ReportsJoin self.now other.now) }
    {
        let entries = self.entries();
        let others = other.entries();
        if !are_of_same_nodes(entries, others) {
            return Err(JoinFault::OtherNodes);
        }
        if let Some(node) = first_conflict(entries, others) {
            return Err(JoinFault::Conflict(node));
        }
        match self.join_entries(other) {
            Ok(inventory) => Ok(inventory),
            Err(_) => Err(JoinFault::Memory),
        }
    }

    // What this inventory and another are together, which agree.
    fn join_entries(&self, other: &Inventory) -> Result<Inventory, AllocError>
        requires same_nodes { names_of self.now ≡ names_of other.now }
        requires agree { (node : ℕ) → ConflictAt self.now other.now node → ⊥ }
        ensures { IfOk result (λ inventory. inventory ≡ later_each self.now other.now) }
    {
        let entries = self.entries();
        let others = other.entries();
        if !has_later(entries, others) {
            return self.share();
        }
        if !has_later(others, entries) {
            return other.share();
        }
        self.caught_up(others)
    }

    // This inventory with each of these entries that is later.
    fn caught_up(&self, others: &[Arc<KnownNode, Global>]) -> Result<Inventory, AllocError>
        requires { length self.now ≡ length others.now }
        ensures { IfOk result (λ inventory. inventory ≡ later_each self.now (map arc_value others.now)) }
    {
        let mut entries = self.copied_entries()?;
        let mut timelines = self.changing_timelines()?;
        for node in 0..others.len() {
            catch_up(
                &mut entries,
                &mut timelines,
                self.alloc,
                node,
                &others[node],
            )?;
        }
        Inventory::changed(self.alloc, entries, timelines)
    }
}

/// A copy shares all with the inventory. Does not allocate: one more owner is counted.
impl Clone for Inventory {
    ghost is_clone = { λ inventory copy. copy ≡ inventory };

    fn clone(&self) -> Result<Inventory, AllocError> {
        self.share()
    }
}

impl PartialEq for Inventory {
    ghost eq = { same_entries };

    ghost laws = { same_entries-per };

    fn eq(&self, other: &Inventory) -> bool
        ensures value { result ≡ same_entries self.now other.now }
        ensures same { IsTrue result ↔ (self.now ≡ other.now) }
    {
        self.entries() == other.entries()
    }
}

impl Eq for Inventory {
    ghost laws = { same_entries-equiv };
}
