//! Filters that tests draw: the text of one, and which rows pass it, by no code of the product.
use crate::drawn::Draws;
use crate::plain::value_of;
use druid_segment_rows::{Row, Schema};
use std::alloc::Global;
use std::fmt::Write;
use std::process::Abort;

/// A step of a filter. Each looks at a row, or takes off what the last steps before it gave, and
/// gives whether that passes.
#[derive(Clone, Copy)]
pub(crate) enum Step {
    /// The dimension has that value: their places among those below.
    Is(usize, usize),
    /// It has one of the values whose bits are set.
    In(usize, u64),
    /// The last does not pass.
    Not,
    /// All of so many of the last pass.
    All(u64),
    /// One of so many of the last passes.
    Any(u64),
}

const NAMES: [&str; 5] = ["d", "d", "e", "f", "m"];

// None is null.
const VALUES: [Option<&str>; 8] = [
    None,
    Some(""),
    Some("a"),
    Some("b"),
    Some("c"),
    Some("\u{e9}"),
    Some("02"),
    Some("z"),
];

fn name(place: usize) -> &'static str {
    NAMES.get(place).copied().unwrap_or("d")
}

fn wanted(place: usize) -> Option<&'static str> {
    VALUES.get(place).copied().flatten()
}

// ---- What is drawn

fn leaf(draws: &mut Draws) -> Step {
    let name = draws.below(5) as usize;
    if draws.below(2) == 0 {
        return Step::Is(name, draws.below(8) as usize);
    }
    Step::In(name, draws.below(256))
}

fn join(draws: &mut Draws, count: u64) -> Step {
    if draws.below(2) == 0 {
        Step::All(count)
    } else {
        Step::Any(count)
    }
}

fn push_step(rt: &impl Abort, steps: &mut Vec<Step>, step: Step) {
    steps.push(step).expect(rt, "memory");
}

/// The steps of a filter. There are none where all rows pass.
pub(crate) fn drawn_steps(rt: &impl Abort, alloc: Global, draws: &mut Draws) -> Vec<Step> {
    let mut steps = Vec::new(alloc);
    let mut given = 0u64;
    for _ in 0..draws.below(5) {
        push_step(rt, &mut steps, leaf(draws));
        given = given.saturating_add(1);
        if draws.below(3) == 0 {
            push_step(rt, &mut steps, Step::Not);
        }
        if draws.below(3) == 0 {
            let count = draws.below(given.saturating_add(1));
            push_step(rt, &mut steps, join(draws, count));
            given = given.saturating_sub(count).saturating_add(1);
        }
    }
    if given > 1 {
        push_step(rt, &mut steps, join(draws, given));
    }
    steps
}

// ---- The text

fn value_text(rt: &impl Abort, alloc: Global, place: usize) -> String {
    match wanted(place) {
        Some(text) => format!(in alloc; "\"{text}\"").expect(rt, "memory"),
        None => String::from_str(alloc, "null").expect(rt, "memory"),
    }
}

// The texts that are there and another, between which a comma stands.
fn push_text(rt: &impl Abort, texts: &mut String, text: &str) {
    let between = if texts.as_str().is_empty() { "" } else { "," };
    write!(texts, "{between}{text}").expect(rt, "memory");
}

// The values whose bits are set.
fn values_text(rt: &impl Abort, alloc: Global, set: u64) -> String {
    let mut texts = String::new(alloc);
    let mut left = set;
    for place in 0..VALUES.len() {
        if left % 2 == 1 {
            let text = value_text(rt, alloc, place);
            push_text(rt, &mut texts, text.as_str());
        }
        left /= 2;
    }
    texts
}

// So many of the last texts, taken off.
fn take_texts(rt: &impl Abort, alloc: Global, texts: &mut Vec<String>, count: u64) -> String {
    let mut taken = String::new(alloc);
    for _ in 0..count {
        let text = texts.pop().expect(rt, "a text");
        push_text(rt, &mut taken, text.as_str());
    }
    taken
}

fn leaf_text(rt: &impl Abort, alloc: Global, name: &str, kind: &str, rest: &str) -> String {
    format!(in alloc; "{{\"type\":\"{kind}\",\"dimension\":\"{name}\",{rest}}}").expect(
        rt, "memory",
    )
}

fn joined_text(rt: &impl Abort, alloc: Global, kind: &str, fields: &str) -> String {
    format!(in alloc; "{{\"type\":\"{kind}\",\"fields\":[{fields}]}}").expect(rt, "memory")
}

fn step_text(rt: &impl Abort, alloc: Global, step: Step, texts: &mut Vec<String>) -> String {
    match step {
        Step::Is(place, value) => {
            let value = value_text(rt, alloc, value);
            let rest = format!(in alloc; "\"value\":{value}").expect(rt, "memory");
            leaf_text(rt, alloc, name(place), "selector", rest.as_str())
        }
        Step::In(place, set) => {
            let values = values_text(rt, alloc, set);
            let rest = format!(in alloc; "\"values\":[{values}]").expect(rt, "memory");
            leaf_text(rt, alloc, name(place), "in", rest.as_str())
        }
        Step::Not => {
            let field = take_texts(rt, alloc, texts, 1);
            format!(in alloc; "{{\"type\":\"not\",\"field\":{field}}}").expect(rt, "memory")
        }
        Step::All(count) => {
            let fields = take_texts(rt, alloc, texts, count);
            joined_text(rt, alloc, "and", fields.as_str())
        }
        Step::Any(count) => {
            let fields = take_texts(rt, alloc, texts, count);
            joined_text(rt, alloc, "or", fields.as_str())
        }
    }
}

/// The key that gives a query this filter, after a comma. There is none of no steps.
pub(crate) fn steps_text(rt: &impl Abort, alloc: Global, steps: &[Step]) -> String {
    let mut texts = Vec::new(alloc);
    for step in steps {
        let text = step_text(rt, alloc, *step, &mut texts);
        texts.push(text).expect(rt, "memory");
    }
    let Some(text) = texts.pop() else {
        return String::new(alloc);
    };
    format!(in alloc; ",\"filter\":{text}").expect(rt, "memory")
}

// ---- Which rows pass

fn is_among(value: Option<&str>, set: u64) -> bool {
    let mut left = set;
    for other in VALUES {
        if left % 2 == 1 && other == value {
            return true;
        }
        left /= 2;
    }
    false
}

// Of so many of the last, taken off: whether all pass, and whether one does.
fn take_both(stack: &mut Vec<bool>, count: u64) -> (bool, bool) {
    let (mut all, mut any) = (true, false);
    for _ in 0..count {
        let passes = stack.pop().unwrap_or(false);
        all = all && passes;
        any = any || passes;
    }
    (all, any)
}

fn step_passes(schema: &Schema, row: &Row, step: Step, stack: &mut Vec<bool>) -> bool {
    match step {
        Step::Is(place, value) => value_of(schema, row, name(place)) == wanted(value),
        Step::In(place, set) => is_among(value_of(schema, row, name(place)), set),
        Step::Not => !stack.pop().unwrap_or(false),
        Step::All(count) => take_both(stack, count).0,
        Step::Any(count) => take_both(stack, count).1,
    }
}

/// Whether a row passes these steps.
pub(crate) fn passes(
    rt: &impl Abort,
    alloc: Global,
    steps: &[Step],
    schema: &Schema,
    row: &Row,
) -> bool {
    let mut stack = Vec::new(alloc);
    for step in steps {
        let passes = step_passes(schema, row, *step, &mut stack);
        stack.push(passes).expect(rt, "memory");
    }
    stack.pop().unwrap_or(true)
}
