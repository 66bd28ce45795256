//! Answers to commands, and their lines.
ghost use Rattle.std.specs.Prelude.{◌≡◌, IfOk, string_bytes, false};
ghost use Rattle.serde_json.specs.View.{view};
ghost use Rattle.serde_json.specs.Written.{has_float};
ghost use Rattle.druid_replay.specs.Answers.{code_of, outcome_text, marks_data, answer_data, line_text};
ghost use Rattle.druid_replay.specs.Seen.{HasNoPieces};

use druid_inventory::Outcome;
use druid_segment_descriptor::Mark;
use druid_segment_text::mark_value;
use druid_timeline::Piece;
use serde_json::{Value, json};
use std::alloc::{AllocError, Global};
use std::marker::Model;

/// Why a command changes nothing.
#[derive(Clone, Copy, Debug, PartialEq, Eq, Drop)]
pub enum Refusal {
    /// C1: the interval is in no form of one.
    NotATime,
    /// C2: the interval names no such date or time.
    OutOfRange,
    /// C3: the interval is empty.
    Empty,
    /// I1: no name of a data source or of a node.
    BadName,
    /// V1: a name of a node stands twice.
    DoubledNode,
    /// Y2: not a reply.
    Shape,
    /// Y5: a snapshot of more than 200,000 segments, a page of more than 20,000, or a delta of more than 1,000 changes.
    TooMany,
    /// Y3: a delta whose marks are not as far apart as it has changes.
    LengthOfDelta,
    /// Y4: an identifier stands twice in a snapshot.
    DoubledSegment,
    /// Y7: no page of 2 to 10, whose segments rise, and of which all but the last are full.
    BadPage,
    /// A1: no such node.
    UnknownNode,
    /// A3: the delta is of another incarnation of the node.
    OtherIncarnation,
    /// A2: the delta begins after the mark that is held.
    Gap,
    /// A4: a load of a segment whose identifier is held, or a drop of one that is not held as it is.
    NotStrict,
    /// A6: a load onto 200,000 segments.
    TooManySegments,
    /// A5: the mark is the one held, and the set is another.
    Conflict,
    /// A7: pages that tell of several snapshots at one mark. No page is put to others here, so none is refused so.
    PageConflict,
    /// J1: inventories of other nodes.
    OtherNodes,
    /// J2: inventories that have other sets at one mark.
    OtherSets,
}

impl Refusal {
    /// The code that tells it.
    pub fn code(&self) -> &'static str
        ensures { result.now ≡ code_of self.now }
    {
        match self {
            Refusal::NotATime => "C1",
            Refusal::OutOfRange => "C2",
            Refusal::Empty => "C3",
            Refusal::BadName => "I1",
            Refusal::DoubledNode => "V1",
            Refusal::Shape => "Y2",
            Refusal::TooMany => "Y5",
            Refusal::LengthOfDelta => "Y3",
            Refusal::DoubledSegment => "Y4",
            Refusal::BadPage => "Y7",
            Refusal::UnknownNode => "A1",
            Refusal::OtherIncarnation => "A3",
            Refusal::Gap => "A2",
            Refusal::NotStrict => "A4",
            Refusal::TooManySegments => "A6",
            Refusal::Conflict => "A5",
            Refusal::PageConflict => "A7",
            Refusal::OtherNodes => "J1",
            Refusal::OtherSets => "J2",
        }
    }
}

/// Visible pieces, in order. A contract sees a list.
#[derive(Debug, Drop)]
pub struct Pieces {
    items: Vec<Piece>,
}

impl Model for Pieces {
    ghost use Rattle.std.specs.Prelude.{List};
    ghost use Rattle.druid_timeline.specs.Pieces.{Reported};

    ghost Value = { List Reported };

    ghost view = { λ a. a.items.items };
}

impl Pieces {
    /// These pieces, in this order.
    pub fn new(items: Vec<Piece>) -> Pieces
        ensures { result ≡ items.items }
    {
        Pieces { items }
    }

    /// The pieces, borrowed.
    pub fn as_slice(&self) -> &[Piece]
        ensures { result.now ≡ self.now }
    {
        self.items.as_slice()
    }
}

/// Marks, in the order of their nodes. A contract sees a list.
#[derive(Debug, Drop)]
pub struct Marks {
    items: Vec<Mark>,
}

impl Model for Marks {
    ghost use Rattle.std.specs.Prelude.{List};
    ghost use Rattle.druid_segment_descriptor.specs.Mark.{Point};

    ghost Value = { List Point };

    ghost view = { λ a. a.items.items };
}

impl Marks {
    /// These marks, in this order.
    pub fn new(items: Vec<Mark>) -> Marks
        ensures { result ≡ items.items }
    {
        Marks { items }
    }

    /// The marks, borrowed.
    pub fn as_slice(&self) -> &[Mark]
        ensures { result.now ≡ self.now }
    {
        self.items.as_slice()
    }
}

/// What a command is answered.
#[derive(Debug, Drop)]
pub enum CommandAnswer {
    /// It changes nothing.
    Refused(Refusal),
    /// That many brokers stand.
    Taken(u64),
    /// A reply was taken.
    Stepped {
        /// The mark of the node after it.
        mark: Mark,
        /// What it did.
        outcome: Outcome,
    },
    /// What is visible.
    Found(Pieces),
    /// How far each node has been followed.
    Marked(Marks),
    /// This broker was joined with another.
    Joined(u64),
    /// Whether two brokers are equal.
    Compared(bool),
}

fn outcome_text(outcome: Outcome) -> &'static str
    ensures { result.now ≡ outcome_text outcome }
{
    match outcome {
        Outcome::Moved => "Moved",
        Outcome::AlreadyHave => "AlreadyHave",
        Outcome::AskWhole => "AskWhole",
        Outcome::AskPages => "AskPages",
    }
}

#[tactic(auto, using(crate::proofs::JsonLemmas::json_lists), unfolding(crate::specs::Answers::marks_data))]
fn marks_value(alloc: Global, marks: &[Mark]) -> Result<Value, AllocError>
    ensures { IfOk result (λ v. view v ≡ marks_data marks.now) }
{
    let mut values = Vec::with_capacity(alloc, marks.len())?;
    for mark in marks {
        values.push(mark_value(alloc, *mark)?)?;
    }
    Ok(Value::Array(values))
}

// The JSON of an answer that has no pieces: these are written one by one.
#[tactic(auto, unfolding(crate::specs::Answers::answer_data))]
fn answer_value(alloc: Global, answer: &CommandAnswer) -> Result<Value, AllocError>
    requires { HasNoPieces answer.now }
    ensures { IfOk result (λ v. view v ≡ answer_data answer.now) }
{
    match answer {
        CommandAnswer::Refused(refusal) => {
            let code = refusal.code();
            json!(in alloc; {"refused": code})
        }
        CommandAnswer::Taken(count) => json!(in alloc; {"brokers": *count}),
        CommandAnswer::Stepped { mark, outcome } => {
            let mark = mark_value(alloc, *mark)?;
            let outcome = outcome_text(*outcome);
            json!(in alloc; {"mark": mark, "outcome": outcome})
        }
        CommandAnswer::Found(_pieces) => unreachable!(),
        CommandAnswer::Marked(marks) => {
            let marks = marks_value(alloc, marks.as_slice())?;
            json!(in alloc; {"marks": marks})
        }
        CommandAnswer::Joined(broker) => json!(in alloc; {"joined": *broker}),
        CommandAnswer::Compared(equal) => json!(in alloc; {"equal": *equal}),
    }
}

/// The line of an answer that has no pieces: its JSON, compact, with the keys in order, and a line feed.
#[tactic(auto, using(crate::proofs::PlainLemmas::answer_plain))]
pub fn answer_line(alloc: Global, answer: &CommandAnswer) -> Result<String, AllocError>
    requires { HasNoPieces answer.now }
    ensures { IfOk result (λ text. string_bytes text ≡ line_text answer.now) }
{
    let mut text = answer_value(alloc, answer)?.to_string(alloc)?;
    text.push('\n')?;
    Ok(text)
}
