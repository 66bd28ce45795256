//! Commands, carried out. Pages are not put together: one is answered `AskPages`.
ghost use Rattle.std.specs.Prelude.{◌≡◌, ◌↔◌, ◌≤◌, ◌<◌, ℕ, All, Some, None, length, map, IsTrue, IsUtf8, IfErr, IfNone, IfOk, IfSome, OnErr};
ghost use Rattle.druid_segment_id.specs.Names.{IsName};
ghost use Rattle.druid_inventory.specs.Entry.{max_nodes};
ghost use Rattle.serde_json.specs.View.{view};
ghost use Rattle.druid_replay.specs.Commands as commands;
ghost use Rattle.druid_replay.specs.Seen.{texts_in, command_seen, AreAmong};
ghost use Rattle.druid_replay.specs.Execution.{TakesBrokers, read_refusal, not_applied, not_joined, TakesReply, AreFoundIn, LooksUp, Does, Answers, IsNoCommand, fault_in, IsAnswered, IsBadFor, AreNodes, ReplyWants, LookupWants, CommandWants, WantsMemory, max_line};

use crate::answer::{CommandAnswer, Marks, Pieces, Refusal};
use crate::brokers::Brokers;
use crate::command::{Command, command_of, opening_of, text_of};
use crate::reason::BadLine;
use druid_base::{JsonFault, TextList, are_distinct, parse_json};
use druid_inventory::{ApplyFault, Inventory, InventoryFault, JoinFault};
use druid_segment_id::{IdFault, Name};
use druid_sync_text::{SyncFault, reply_of};
use druid_time::{Interval, IntervalSet, TimeFault};
use druid_timeline::Timeline;
use serde_json::Value;
use std::alloc::{AllocError, Global};

// Whether each text is a name. Does not allocate.
#[tactic(auto, using(crate::proofs::NameLemmas::not_all, crate::proofs::NameLemmas::names_more))]
fn are_names(nodes: &[Value]) -> bool
    ensures { IsTrue result ↔ All IsName (texts_in nodes.now) }
{
    for node in nodes {
        if !Name::accepts(text_of(node)) {
            return false;
        }
    }
    true
}

// The texts of a list.
#[derive(Drop)]
struct NodeTexts<'a> {
    nodes: &'a [Value],
}

impl TextList for NodeTexts<'_> {
    ghost texts = { λ list. texts_in list.nodes.now };

    fn count(&self) -> usize {
        self.nodes.len()
    }

    fn text(&self, place: usize) -> &str {
        text_of(&self.nodes[place])
    }
}

// The names that texts are; None where one is none.
fn names_of(alloc: Global, nodes: &[Value]) -> Result<Option<Vec<Name>>, AllocError>
    ensures read { IfOk result (λ read. IfSome read (λ names. names.items ≡ texts_in nodes.now)) }
    ensures names { IfOk result (λ read. IfSome read (λ _. All IsName (texts_in nodes.now))) }
    ensures none { IfOk result (λ read. IfNone read (All IsName (texts_in nodes.now) → ⊥)) }
{
    let mut names = Vec::with_capacity(alloc, nodes.len())?;
    for node in nodes {
        let name = match Name::new(alloc, text_of(node)) {
            Ok(name) => name,
            Err(IdFault::BadName) => return Ok(None),
            Err(_) => return Err(AllocError),
        };
        names.push(name)?;
    }
    Ok(Some(names))
}

// Brokers over nodes: what they are answered, and the brokers where they were taken.
fn open_brokers(
    alloc: Global,
    count: u64,
    nodes: &[Value],
) -> Result<(CommandAnswer, Option<Brokers>), AllocError>
    requires some { 1 ≤ length nodes.now }
    requires few { length nodes.now ≤ max_nodes }
    ensures { IfOk result (λ r.
        TakesBrokers (record { count = count; names = texts_in nodes.now }) r.0 r.1) }
{
    let Some(names) = names_of(alloc, nodes)? else {
        return Ok((CommandAnswer::Refused(Refusal::BadName), None));
    };
    let inventory = match Inventory::new(alloc, names) {
        Ok(inventory) => inventory,
        Err(InventoryFault::DoubledNode) => {
            return Ok((CommandAnswer::Refused(Refusal::DoubledNode), None));
        }
        Err(_) => return Err(AllocError),
    };
    let brokers = Brokers::new(alloc, &inventory, count)?;
    Ok((CommandAnswer::Taken(count), Some(brokers)))
}

// The same, where out of memory comes after the refusals: where it came sooner, all names are looked at without allocating.
fn take_brokers(
    alloc: Global,
    count: u64,
    nodes: &[Value],
) -> Result<(CommandAnswer, Option<Brokers>), AllocError>
    requires some { 1 ≤ length nodes.now }
    requires few { length nodes.now ≤ max_nodes }
    ensures ok { IfOk result (λ r.
        TakesBrokers (record { count = count; names = texts_in nodes.now }) r.0 r.1) }
    ensures memory { OnErr result (AreNodes (texts_in nodes.now)) }
{
    if let Ok(taken) = open_brokers(alloc, count, nodes) {
        return Ok(taken);
    }
    if !are_names(nodes) {
        return Ok((CommandAnswer::Refused(Refusal::BadName), None));
    }
    if !are_distinct(&NodeTexts { nodes }) {
        return Ok((CommandAnswer::Refused(Refusal::DoubledNode), None));
    }
    Err(AllocError)
}

// What tells that a reply was not read; out of memory is not reported.
fn read_refusal(fault: SyncFault) -> Option<Refusal>
    ensures { result ≡ read_refusal fault }
{
    match fault {
        SyncFault::NotJson => None,
        SyncFault::Shape => Some(Refusal::Shape),
        SyncFault::TooMany => Some(Refusal::TooMany),
        SyncFault::LengthOfDelta => Some(Refusal::LengthOfDelta),
        SyncFault::DoubledSegment => Some(Refusal::DoubledSegment),
        SyncFault::BadPage => Some(Refusal::BadPage),
        SyncFault::Memory => None,
    }
}

// What tells that a reply was not applied; out of memory is not reported.
fn not_applied(fault: ApplyFault) -> Option<Refusal>
    ensures { result ≡ not_applied fault }
{
    match fault {
        ApplyFault::UnknownNode => Some(Refusal::UnknownNode),
        ApplyFault::OtherIncarnation => Some(Refusal::OtherIncarnation),
        ApplyFault::Gap => Some(Refusal::Gap),
        ApplyFault::NotStrict { .. } => Some(Refusal::NotStrict),
        ApplyFault::TooMany => Some(Refusal::TooManySegments),
        ApplyFault::Conflict => Some(Refusal::Conflict),
        ApplyFault::PageConflict => Some(Refusal::PageConflict),
        ApplyFault::Memory => None,
    }
}

// What tells that inventories were not joined; out of memory is not reported.
fn not_joined(fault: JoinFault) -> Option<Refusal>
    ensures { result ≡ not_joined fault }
{
    match fault {
        JoinFault::OtherNodes => Some(Refusal::OtherNodes),
        JoinFault::Conflict(_) => Some(Refusal::OtherSets),
        JoinFault::Memory => None,
    }
}

// An inventory takes a reply of a node: what is answered. Where that fails the inventory stays.
pub(crate) fn step(
    alloc: Global,
    inventory: &mut Inventory,
    node: u16,
    value: &Value,
) -> Result<CommandAnswer, AllocError>
    ensures ok { IfOk result (λ answer. TakesReply inventory.old node (view value.now) answer inventory.new) }
    ensures memory { OnErr result (ReplyWants inventory.old node (view value.now)) }
{
    let reply = match reply_of(alloc, value) {
        Ok(reply) => reply,
        Err(fault) => match read_refusal(fault) {
            Some(refusal) => return Ok(CommandAnswer::Refused(refusal)),
            None => return Err(AllocError),
        },
    };
    match inventory.advance(node, &reply) {
        Ok(outcome) => {
            let mark = inventory.mark(node).unwrap();
            Ok(CommandAnswer::Stepped { mark, outcome })
        }
        Err(fault) => match not_applied(fault) {
            Some(refusal) => Ok(CommandAnswer::Refused(refusal)),
            None => Err(AllocError),
        },
    }
}

// A broker takes a reply of a node.
fn take_reply(
    alloc: Global,
    mut brokers: Brokers,
    broker: u64,
    node: u16,
    value: &Value,
) -> Result<(CommandAnswer, Brokers), AllocError>
    requires { broker < length brokers }
    ensures ok { IfOk result (λ r. Does brokers (commands.reply broker node (view value.now)) r.0 r.1) }
    ensures memory { OnErr result (CommandWants brokers (commands.reply broker node (view value.now))) }
{
    let answer = brokers.step(alloc, broker, node, value)?;
    Ok((answer, brokers))
}

// What is visible in an interval of what a timeline holds.
fn pieces_in(alloc: Global, timeline: &Timeline, asked: Interval) -> Result<Pieces, AllocError>
    ensures { IfOk result (λ pieces. AreFoundIn asked timeline.now.held pieces) }
{
    let set = IntervalSet::of(alloc, &[asked])?;
    let pieces = timeline.lookup(&set)?;
    Ok(Pieces::new(pieces))
}

// What is visible of a source in an interval.
fn look_up(
    alloc: Global,
    inventory: &Inventory,
    interval: &str,
    source: &str,
) -> Result<CommandAnswer, AllocError>
    ensures ok { IfOk result (λ answer. LooksUp inventory.now interval.now source.now answer) }
    ensures memory { OnErr result (LookupWants interval.now source.now) }
{
    let asked = match Interval::parse(interval) {
        Ok(asked) => asked,
        Err(TimeFault::NotATime) => return Ok(CommandAnswer::Refused(Refusal::NotATime)),
        Err(TimeFault::OutOfRange) => return Ok(CommandAnswer::Refused(Refusal::OutOfRange)),
        Err(TimeFault::Empty) => return Ok(CommandAnswer::Refused(Refusal::Empty)),
    };
    if !Name::accepts(source) {
        return Ok(CommandAnswer::Refused(Refusal::BadName));
    }
    let Ok(source) = Name::new(alloc, source) else {
        return Err(AllocError);
    };
    let Some(timeline) = inventory.timeline(&source) else {
        return Ok(CommandAnswer::Found(Pieces::new(Vec::new(alloc))));
    };
    let pieces = pieces_in(alloc, timeline, asked)?;
    Ok(CommandAnswer::Found(pieces))
}

// How far each node of an inventory has been followed.
fn marks_of(alloc: Global, inventory: &Inventory) -> Result<Marks, AllocError>
    ensures { IfOk result (λ marks. marks ≡ map (λ e. e.mark) inventory.now) }
{
    let mut marks = Vec::new(alloc);
    for node in 0..inventory.node_count() {
        let Some(mark) = inventory.mark(node) else {
            unreachable!()
        };
        marks.push(mark)?;
    }
    Ok(Marks::new(marks))
}

// A broker becomes the join of itself and another.
fn join_brokers(
    brokers: Brokers,
    from: u64,
    into: u64,
) -> Result<(CommandAnswer, Brokers), AllocError>
    requires from { from < length brokers }
    requires into { into < length brokers }
    ensures ok { IfOk result (λ r. Does brokers (commands.join from into) r.0 r.1) }
    ensures memory { OnErr result (CommandWants brokers (commands.join from into)) }
{
    let joined = brokers.inventory(into).join(brokers.inventory(from));
    match joined {
        Ok(inventory) => Ok((CommandAnswer::Joined(into), brokers.with(into, inventory))),
        Err(fault) => match not_joined(fault) {
            Some(refusal) => Ok((CommandAnswer::Refused(refusal), brokers)),
            None => Err(AllocError),
        },
    }
}

// Whether two brokers are equal.
fn compare(brokers: &Brokers, left: u64, right: u64) -> CommandAnswer
    requires left { left < length brokers.now }
    requires right { right < length brokers.now }
    ensures { Does brokers.now (commands.equal left right) result brokers.now }
{
    CommandAnswer::Compared(brokers.inventory(left) == brokers.inventory(right))
}

// A command to brokers that stand.
fn do_command(
    alloc: Global,
    brokers: Brokers,
    command: Command<'_>,
) -> Result<(CommandAnswer, Brokers), AllocError>
    requires { AreAmong (length brokers) (command_seen command) }
    ensures ok { IfOk result (λ r. Does brokers (command_seen command.entry) r.0 r.1) }
    ensures memory { OnErr result (CommandWants brokers (command_seen command.entry)) }
{
    match command {
        Command::Reply {
            broker,
            node,
            reply,
        } => take_reply(alloc, brokers, broker, node, reply),
        Command::Lookup {
            broker,
            interval,
            source,
        } => {
            let answer = look_up(alloc, brokers.inventory(broker), interval, source)?;
            Ok((answer, brokers))
        }
        Command::Marks { broker } => {
            let marks = marks_of(alloc, brokers.inventory(broker))?;
            Ok((CommandAnswer::Marked(marks), brokers))
        }
        Command::Join { from, into } => join_brokers(brokers, from, into),
        Command::Equal { left, right } => {
            let answer = compare(&brokers, left, right);
            Ok((answer, brokers))
        }
    }
}

/// What is answered, and the brokers that stand after it; or what is wrong with a line that is no command.
pub(crate) type Served = Result<(CommandAnswer, Option<Brokers>), BadLine>;

// What a value is answered, once brokers stand.
fn answer_command(alloc: Global, brokers: Brokers, value: &Value) -> Result<Served, AllocError>
    ensures answered { IfOk result (λ found.
        IfOk found (λ r. Answers (Some brokers) (view value.now) r.0 r.1)) }
    ensures none { IfOk result (λ found.
        IfErr found (λ bad. IsNoCommand (Some brokers) (view value.now) × (bad ≡ fault_in (Some brokers) (view value.now)))) }
    ensures memory { OnErr result (WantsMemory (Some brokers) (view value.now)) }
{
    let command = match command_of(value, brokers.count()) {
        Ok(command) => command,
        Err(bad) => return Ok(Err(bad)),
    };
    let (answer, next) = do_command(alloc, brokers, command)?;
    Ok(Ok((answer, Some(next))))
}

// The first command, which asks for brokers.
fn answer_opening(alloc: Global, value: &Value) -> Result<Served, AllocError>
    ensures answered { IfOk result (λ found.
        IfOk found (λ r. Answers None (view value.now) r.0 r.1)) }
    ensures none { IfOk result (λ found.
        IfErr found (λ bad. IsNoCommand None (view value.now) × (bad ≡ fault_in None (view value.now)))) }
    ensures memory { OnErr result (WantsMemory None (view value.now)) }
{
    let opening = match opening_of(value) {
        Ok(opening) => opening,
        Err(bad) => return Ok(Err(bad)),
    };
    Ok(Ok(take_brokers(alloc, opening.count, opening.nodes)?))
}

/// What a line is answered, and the brokers that stand after it; where the line is no JSON or no command, what is wrong with it. Memory may be
/// refused only for a line in UTF-8, while its JSON is read or where no refusal that is seen without allocating holds.
pub fn serve_line(alloc: Global, state: Option<Brokers>, line: &[u8]) -> Result<Served, AllocError>
    requires { length line.now ≤ max_line }
    ensures answered { IfOk result (λ found.
        IfOk found (λ r. IsAnswered state line.now r.0 r.1)) }
    ensures bad { IfOk result (λ found. IfErr found (IsBadFor state line.now)) }
    ensures memory { OnErr result (IsUtf8 line.now) }
{
    let value = match parse_json(alloc, line) {
        Ok(value) => value,
        Err(JsonFault::NotJson) => return Ok(Err(BadLine::NotJson)),
        Err(JsonFault::Memory) => return Err(AllocError),
    };
    match state {
        Some(brokers) => answer_command(alloc, brokers, &value),
        None => answer_opening(alloc, &value),
    }
}
