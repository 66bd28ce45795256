use crate::rows::{descriptor, name, parsed, push_partitions};
use crate::tables::{assert_reported, assert_rows};
use druid_inventory::{Assembly as Replies, Inventory};
use druid_segment_descriptor::{Ask, Body, Change, Descriptor, MAX_PAGE, Mark, Reply};
use druid_sync_history::History;
use druid_sync_pages::{Assembly, PageFault, page_of, pages_of};
use druid_sync_text::ask_target;
use std::alloc::Global;
use std::process::Abort;

// Pages that come one after another, each as an incarnation and a count, the page and of how many it is, and its partitions; and
// what each gives.
const ASSEMBLED: &str =
    "1 9 0/3 1;1 9 2/3 5;1 9 2/3 5;1 9 0/3 1;1 9 1/3 3 4 = none;none;none;none;whole 1 3 4 5
1 9 0/2 1;1 10 0/2 2;1 9 1/2 3;1 10 1/2 4 = none;none;none;whole 2 4
1 9 0/2 1;2 1 1/2 4;2 1 0/2 3;1 9 1/2 2 = none;none;whole 3 4;none
1 9 0/2 1;1 9 1/3 2;1 9 1/2 3 = none;conflict;whole 1 3
1 9 0/2 1;1 9 0/2 2;1 9 1/2 3 = none;conflict;whole 1 3
1 9 0/2 1;1 9 0/2 1 2;1 9 1/2 3 = none;conflict;whole 1 3
1 9 0/2 5;1 9 1/2 3;1 9 1/2 5;1 9 1/2 6 = none;conflict;conflict;whole 5 6
1 9 0/2 1;1 9 1/2 3;1 9 1/2 4;1 9 0/2 1 = none;whole 1 3;none;whole 1 4";

fn segments_of(rt: &impl Abort, alloc: Global, words: &str) -> Vec<Descriptor> {
    let mut segments = Vec::new(alloc);
    for word in words.split(' ') {
        let partition = parsed(rt, word);
        segments
            .push(descriptor(rt, alloc, partition))
            .expect(rt, "memory");
    }
    segments
}

// What is given for a page of these segments, which rise.
fn give(
    rt: &impl Abort,
    alloc: Global,
    assembly: &mut Assembly,
    page: u16,
    of: u16,
    reply: &Reply,
) -> Result<Option<Vec<Descriptor>>, PageFault> {
    let Body::Snapshot { at, segments } = reply.body() else {
        return Ok(None);
    };
    let segments = segments.as_slice();
    assert!(rt; 2 <= of && of <= 10 && page < of);
    assert!(rt; !segments.is_empty() && segments.len() <= 20_000);
    assembly.take(*at, page, of, segments)
}

// The mark, the page, and of how many it is.
fn page_read<'a>(rt: &impl Abort, text: &'a str) -> (Mark, u16, u16, &'a str) {
    let (incarnation, rest) = text.split_once(' ').expect(rt, "an incarnation");
    let (count, rest) = rest.split_once(' ').expect(rt, "a count");
    let (page, partitions) = rest.split_once(' ').expect(rt, "partitions");
    let (page, of) = page.split_once('/').expect(rt, "a page");
    let mark = Mark::new(parsed(rt, incarnation), parsed(rt, count));
    (mark, parsed(rt, page), parsed(rt, of), partitions)
}

fn push_given(
    rt: &impl Abort,
    alloc: Global,
    assembly: &mut Assembly,
    row: &str,
    given: &mut String,
) {
    let (mark, page, of, words) = page_read(rt, row);
    assert!(rt; mark.incarnation() != 0);
    let reply = Reply::snapshot(mark, segments_of(rt, alloc, words)).expect(rt, "own partitions");
    match give(rt, alloc, assembly, page, of, &reply) {
        Ok(None) => given.push_str("none").expect(rt, "memory"),
        Ok(Some(whole)) => {
            given.push_str("whole").expect(rt, "memory");
            push_partitions(rt, given, whole.as_slice());
        }
        Err(PageFault::Conflict) => given.push_str("conflict").expect(rt, "memory"),
        Err(PageFault::Memory) => given.push_str("memory").expect(rt, "memory"),
    }
}

fn assembled(rt: &impl Abort, alloc: Global, pages: &str) -> String {
    let mut assembly = Assembly::new(alloc);
    let mut given = String::new(alloc);
    for page in pages.split(';') {
        if !given.is_empty() {
            given.push_str(";").expect(rt, "memory");
        }
        push_given(rt, alloc, &mut assembly, page, &mut given);
    }
    given
}

// How many segments the page of a set of 45,000 has.
fn length_of(rt: &impl Abort, alloc: Global, set: &[Descriptor], page: u16) -> usize {
    page_of(alloc, set, page).expect(rt, "memory").len()
}

// The partition of the first segment of that page.
fn first_of(rt: &impl Abort, alloc: Global, set: &[Descriptor], page: u16) -> u16 {
    let segments = page_of(alloc, set, page).expect(rt, "memory");
    let first = segments.get(0).expect(rt, "a segment");
    first.id().partition()
}

#[test]
fn pages_that_are_assembled(rt: HostRuntime) {
    assert_rows(&rt, rt.alloc(), ASSEMBLED, assembled);
}

#[test]
fn sizes_of_pages(rt: HostRuntime) {
    let alloc = rt.alloc();
    let counts = [0, 1, 20_000, 20_001, 40_000, 45_000, 200_000];
    let pages = [0, 1, 1, 2, 2, 3, 10];
    for i in 0..7usize {
        assert!(&rt; pages_of(counts[i]) == pages[i], "{i}");
    }
    assert!(&rt; MAX_PAGE == 20_000);
    let mut set = Vec::new(alloc);
    for partition in 0..45_000u16 {
        set.push(descriptor(&rt, alloc, partition))
            .expect(&rt, "memory");
    }
    let lengths = [20_000, 20_000, 5_000, 0];
    for page in 0..4u16 {
        let length = length_of(&rt, alloc, set.as_slice(), page);
        assert!(&rt; length == lengths[page as usize], "{page}");
    }
    assert!(&rt; first_of(&rt, alloc, set.as_slice(), 2) == 40_000);
}

// Loads partitions of one chunk, from the first on.
fn load(rt: &impl Abort, alloc: Global, node: &mut History, first: u16, count: u16) {
    for number in 0..count {
        let segment = descriptor(rt, alloc, first.wrapping_add(number));
        node.record(Change::Load(segment))
            .expect(rt, "a refused load");
    }
}

// What a reply says, and how long it is.
fn reply_said(rt: &impl Abort, alloc: Global, reply: &Reply) -> String {
    let said = match reply.body() {
        Body::Delta { to, changes, .. } => {
            let count = changes.as_slice().len();
            format!(in alloc; "{count} changes to {}", to.count())
        }
        Body::Snapshot { at, segments } => {
            let count = segments.as_slice().len();
            format!(in alloc; "{count} at {}", at.count())
        }
        Body::Page {
            at,
            page,
            of,
            segments,
        } => {
            let count = segments.as_slice().len();
            format!(in alloc; "{page} of {of} at {}: {count}", at.count())
        }
        Body::Reset { cause, at } => format!(in alloc; "{cause:?} at {}", at.count()),
    };
    said.expect(rt, "memory")
}

// What a node answers to an ask.
fn ask(rt: &impl Abort, node: &mut History, ask: &Ask) -> Reply {
    node.since(ask).expect(rt, "memory")
}

fn assert_said(rt: &impl Abort, alloc: Global, node: &mut History, asked: &Ask, wanted: &str) {
    let reply = ask(rt, node, asked);
    assert_reported(rt, "a reply", reply_said(rt, alloc, &reply), wanted);
}

// What a page gives.
fn deliver(rt: &impl Abort, assembly: &mut Replies, reply: &Reply) -> Option<Reply> {
    match reply.body() {
        Body::Page { .. } => assembly.take(reply).expect(rt, "a refused page"),
        _ => None,
    }
}

// A broker of one node, once these pages of the node at that mark came to it.
fn broker_after(
    rt: &impl Abort,
    alloc: Global,
    node: &mut History,
    mark: Mark,
    pages: &[u16],
) -> Inventory {
    let mut names = Vec::new(alloc);
    names.push(name(rt, alloc, "n0")).expect(rt, "memory");
    let mut inventory = Inventory::new(alloc, names).expect(rt, "an inventory");
    let mut assembly = Replies::new(alloc);
    for page in pages {
        let reply = ask(rt, node, &Ask::Page(mark, *page));
        if let Some(snapshot) = deliver(rt, &mut assembly, &reply) {
            let (next, _) = inventory.apply(0, &snapshot).expect(rt, "a snapshot");
            inventory = next;
        }
    }
    inventory
}

// Whether two replies are pages of the same segments.
fn are_same_pages(first: &Reply, second: &Reply) -> bool {
    match (first.body(), second.body()) {
        (Body::Page { segments: a, .. }, Body::Page { segments: b, .. }) => {
            a.as_slice() == b.as_slice()
        }
        _ => false,
    }
}

#[test]
fn pages_of_a_node(rt: HostRuntime) {
    let alloc = rt.alloc();
    let mut node = History::new(alloc, 1, 10).expect(&rt, "memory");
    load(&rt, alloc, &mut node, 0, 45_000);
    let mark = Mark::new(1, 45_000);
    assert_said(&rt, alloc, &mut node, &Ask::Whole, "0 of 3 at 45000: 20000");
    let before = broker_after(&rt, alloc, &mut node, mark, &[0, 2, 2, 0]);
    assert!(&rt; before.mark(0) == Some(Mark::never()));
    let after = broker_after(&rt, alloc, &mut node, mark, &[0, 2, 2, 0, 1]);
    assert!(&rt; after.mark(0) == Some(mark));
    assert!(&rt; after.segments(0).expect(&rt, "a node").len() == 45_000);
    let page = ask(&rt, &mut node, &Ask::Page(mark, 1));
    load(&rt, alloc, &mut node, 45_000, 10);
    let again = ask(&rt, &mut node, &Ask::Page(mark, 1));
    assert!(&rt; are_same_pages(&page, &again));
    let since = Ask::Since(mark);
    assert_said(&rt, alloc, &mut node, &since, "10 changes to 45010");
    load(&rt, alloc, &mut node, 45_010, 1);
    let second = Ask::Page(mark, 1);
    assert_said(&rt, alloc, &mut node, &second, "TooOld at 45011");
    assert_said(&rt, alloc, &mut node, &Ask::Whole, "0 of 3 at 45011: 20000");
    let target = ask_target(alloc, &second).expect(&rt, "memory");
    let wanted = "/druid-internal/v1/segments?counter=45000&hash=1&page=1";
    assert_reported(&rt, "an ask", target, wanted);
}
