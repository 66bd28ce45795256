//! Asks, written and read. Parameters are those of a web form, without their escapes undone (the
//! kit's `form_urlencoded`): empty pieces between `&` are none.
ghost use Rattle.std.specs.Prelude.{◌≡◌, ◌++◌, ◌∷◌, [], ℕ, List, IfOk, Some, string_bytes, codes, decimal, ok_or};
ghost use Rattle.druid_sync_text.specs.Asks.{ask_text, target_at, parameters_of, IsOfIncarnation, values_of, mark_of, page_of, page_at, ask_of, ask_at};
ghost use Rattle.druid_sync_text.specs.Given.{IsGiven};

use crate::AskFault;
use druid_base::number_of;
use druid_segment_descriptor::{Ask, Mark};
use form_urlencoded::raw_pairs;
use std::alloc::{AllocError, Global};

// The target of what comes after a mark, at a path.
fn since_text(alloc: Global, path: &str, count: u64, incarnation: u64) -> Result<String, AllocError>
    ensures { IfOk result (λ text. string_bytes text ≡ path.now ++ (codes "?counter="
        ++ (decimal count ++ (codes "&hash=" ++ decimal incarnation)))) }
{
    format!(in alloc; "{path}?counter={count}&hash={incarnation}")
}

// The target of a page, at a path.
fn page_text(
    alloc: Global,
    path: &str,
    count: u64,
    incarnation: u64,
    page: u16,
) -> Result<String, AllocError>
    ensures { IfOk result (λ text. string_bytes text ≡ path.now ++ (codes "?counter="
        ++ (decimal count ++ (codes "&hash=" ++ (decimal incarnation ++ (codes "&page=" ++ decimal page)))))) }
{
    format!(in alloc; "{path}?counter={count}&hash={incarnation}&page={page}")
}

/// The target of an ask at a path: the path for the whole, with `?counter=C&hash=H` after it for what comes after the mark of
/// count C in incarnation H, and with `&page=K` after that for page K of what was served at that mark. `read_ask` gets the
/// ask back from what follows the `?`.
///
/// # Errors
///
/// Out of memory.
pub fn ask_target_at(alloc: Global, path: &str, ask: &Ask) -> Result<String, AllocError>
    ensures text { IfOk result (λ text. string_bytes text ≡ target_at path.now ask.now) }
    ensures read_back { IfOk result (λ _. IsOfIncarnation ask.now → ask_at (parameters_of ask.now) ≡ Some ask.now) }
{
    match ask {
        Ask::Whole => String::from_str(alloc, path),
        Ask::Since(mark) => {
            let (count, incarnation) = (mark.count(), mark.incarnation());
            since_text(alloc, path, count, incarnation)
        }
        Ask::Page(mark, page) => {
            let (count, incarnation) = (mark.count(), mark.incarnation());
            page_text(alloc, path, count, incarnation, *page)
        }
    }
}

/// The target of an ask of a node, at `/druid-internal/v1/segments`.
///
/// # Errors
///
/// Out of memory.
pub fn ask_target(alloc: Global, ask: &Ask) -> Result<String, AllocError>
    ensures text { IfOk result (λ text. string_bytes text ≡ ask_text ask.now) }
    ensures read_back { IfOk result (λ _. IsOfIncarnation ask.now → ask_at (parameters_of ask.now) ≡ Some ask.now) }
{
    ask_target_at(alloc, "/druid-internal/v1/segments", ask)
}

// How often a parameter is given, and its value where it is once.
#[derive(Clone, Copy)]
enum Given<'a> {
    Never,
    Once(&'a [u8]),
    Twice,
}

// How often it is given, where it is once more.
fn once_more<'a>(given: Given<'a>, value: &'a [u8]) -> Given<'a>
    ensures { (values : List (List ℕ)) → IsGiven given.entry values → IsGiven result (values ++ value.now ∷ []) }
{
    match given {
        Given::Never => Given::Once(value),
        Given::Once(_first) => Given::Twice,
        Given::Twice => Given::Twice,
    }
}

// What the parameter of that name is given.
#[tactic(auto, using(crate::proofs::AskLemmas::given_more, crate::proofs::AskLemmas::given_other))]
fn values_given<'a>(query: &'a str, name: &str) -> Given<'a>
    ensures { IsGiven result (values_of name.now query.now) }
{
    let mut given = Given::Never;
    for (key, value) in raw_pairs(query.as_bytes()) {
        if key == name.as_bytes() {
            given = once_more(given, value);
        }
    }
    given
}

// A mark of an incarnation, by the digits of its count and of its incarnation.
#[tactic(auto, unfolding(crate::specs::Asks::mark_of))]
fn mark_of(counter: &[u8], hash: &[u8]) -> Option<Mark>
    ensures { result ≡ mark_of counter.now hash.now }
{
    let count = number_of(counter)?;
    let incarnation = number_of(hash)?;
    if 1 <= incarnation {
        Some(Mark::new(incarnation, count))
    } else {
        None
    }
}

// The number of a page, by its digits.
#[tactic(auto, unfolding(crate::specs::Asks::page_of))]
fn page_of(digits: &[u8]) -> Option<u16>
    ensures { result ≡ page_of digits.now }
{
    let page = number_of(digits)?;
    if page <= u16::MAX as u64 {
        Some(page as u16)
    } else {
        None
    }
}

// An ask for a page.
#[tactic(auto, unfolding(crate::specs::Asks::page_at))]
fn page_ask(counter: &[u8], hash: &[u8], digits: &[u8]) -> Option<Ask>
    ensures { result ≡ page_at counter.now hash.now digits.now }
{
    let mark = mark_of(counter, hash)?;
    let page = page_of(digits)?;
    Some(Ask::Page(mark, page))
}

#[tactic(auto, unfolding(crate::specs::Asks::ask_of))]
fn find_ask(query: &str) -> Option<Ask>
    ensures { result ≡ ask_at query.now }
{
    let (counter, hash) = (values_given(query, "counter"), values_given(query, "hash"));
    match (counter, hash, values_given(query, "page")) {
        (Given::Never, Given::Never, Given::Never) => Some(Ask::Whole),
        (Given::Once(counter), Given::Never, Given::Never) => {
            if counter == b"-1".as_slice() {
                Some(Ask::Whole)
            } else {
                None
            }
        }
        (Given::Once(counter), Given::Once(hash), Given::Never) => {
            mark_of(counter, hash).map(Ask::Since)
        }
        (Given::Once(counter), Given::Once(hash), Given::Once(page)) => {
            page_ask(counter, hash, page)
        }
        _ => None,
    }
}

/// Reads the query string of an ask, which is what follows the `?` of its target, and empty where
/// there is none. `counter` and `hash` stand in any order, both once or neither, and tell a mark of
/// an incarnation in decimal digits without a leading zero; a `counter` of -1 alone asks for the
/// whole too. `page` stands once with both, or not at all, and tells a page in such digits, 65,535
/// at most. Other parameters are passed over.
///
/// # Errors
///
/// Y6 of any other text.
pub fn read_ask(query: &str) -> Result<Ask, AskFault>
    ensures { result ≡ ok_or (ask_at query.now) AskFault.BadCounter }
{
    find_ask(query).ok_or(AskFault::BadCounter)
}
