//! The texts of a dimension, numbered as they come, and put in order at the end.
ghost use Rattle.std.specs.Prelude.{◌≡◌, ◌≢◌, ◌*◌, ◌↔◌, List, ℕ, suc, ◌+◌, ◌-◌, ◌^◌, ◌<◌, ◌≤◌, [], ◌∷◌, ◌++◌, set, length, map, take, slice_index_or, Some, All, Contains, IsTrue, IfOk, OnOk};
ghost use Rattle.std.specs.Option.{option_map};
ghost use Rattle.druid_segment_rows.specs.Columns.{IsDictionary, value_at};
ghost use Rattle.druid_segment_rows.specs.Numbering.{AreNumbered, texts_in, code_by_rank, with_mark, HavePlaces};

use crate::number_cache::{NumberCache, hash_of};
use crate::texts::Texts;
use std::alloc::{AllocError, Global};
use std::marker::Model;

// Texts by numbers, which count from 1 on as the texts come. A text may have several: it gets a new one where the cache
// has lost the last.
#[derive(Debug, Drop)]
pub(crate) struct Numbering {
    alloc: Global,
    entries: Vec<(String, u32)>,
    cache: NumberCache,
}

impl Model for Numbering {
    ghost use Rattle.std.specs.Prelude.{◌*◌, ◌^◌, ◌<◌, List, ℕ, length};
    ghost use Rattle.druid_segment_rows.specs.Numbering.{texts_in, AreNumbered};

    ghost Value = { List (List ℕ) };

    ghost view = { λ a. texts_in a.entries.items };

    ghost invariant = { λ a. AreNumbered a.entries.items × (length a.entries.items < 2 ^ 32) };
}

// The text of a number.
fn text_of(entries: &[(String, u32)], number: u32) -> Option<&str>
    ensures { option_map (λ text. text.now) result ≡ value_at (texts_in entries.now) number }
{
    match number {
        0 => None,
        number => match entries.get(number as usize - 1) {
            Some(entry) => Some(entry.0.as_str()),
            None => None,
        },
    }
}

// Whether the value is that text.
fn is_text(value: Option<&str>, text: &str) -> bool
    ensures { IsTrue result ↔ (option_map (λ text. text.now) value.entry ≡ Some text.now) }
{
    match value {
        Some(value) => value == text,
        None => false,
    }
}

impl Numbering {
    // No texts.
    pub(crate) fn new(alloc: Global) -> Numbering
        ensures { result ≡ [] }
    {
        Numbering {
            alloc,
            entries: Vec::new(alloc),
            cache: NumberCache::new(alloc),
        }
    }

    // The number of a text, and 0 of null.
    pub(crate) fn code_of(&mut self, value: Option<&str>) -> Result<u32, AllocError>
        ensures kept { take (length self.old) self.new ≡ self.old }
        ensures code { IfOk result (λ code. value_at self.new code ≡ option_map (λ text. text.now) value.entry) }
        ensures bounded { IfOk result (λ code. code ≤ length self.new) }
    {
        match value {
            Some(text) => self.number_of(text),
            None => Ok(0),
        }
    }

    // The number of a text, which gets one where none is found.
    fn number_of(&mut self, text: &str) -> Result<u32, AllocError>
        ensures kept { take (length self.old) self.new ≡ self.old }
        ensures number { IfOk result (λ number. value_at self.new number ≡ Some text.now) }
        ensures bounded { IfOk result (λ number. number ≤ length self.new) }
    {
        let hash = hash_of(text);
        let number = self.cache.get(hash);
        if is_text(text_of(&self.entries, number), text) {
            return Ok(number);
        }
        let number = self.add(text)?;
        self.cache.insert(self.alloc, hash, number)?;
        Ok(number)
    }

    // Gives a text the next number.
    fn add(&mut self, text: &str) -> Result<u32, AllocError>
        ensures kept { take (length self.old) self.new ≡ self.old }
        ensures number { IfOk result (λ number. value_at self.new number ≡ Some text.now) }
        ensures bounded { IfOk result (λ number. number ≤ length self.new) }
    {
        let Ok(number) = u32::try_from(self.entries.len() + 1) else {
            return Err(AllocError);
        };
        let text = String::from_str(self.alloc, text)?;
        self.entries.push((text, number))?;
        Ok(number)
    }

    // The texts that the codes stand for, in order. The codes become those among these texts.
    pub(crate) fn sort(self, codes: &mut [u32]) -> Result<Texts, AllocError>
        requires { All (λ code. code ≤ length self) codes.old }
        ensures dictionary { IfOk result (λ texts. IsDictionary (map (value_at self) codes.old) texts) }
        ensures stand { IfOk result (λ texts. map (value_at texts) codes.new ≡ map (value_at self) codes.old) }
        ensures bounded { IfOk result (λ texts. All (λ code. code ≤ length texts) codes.new) }
    {
        let Numbering { alloc, entries, .. } = self;
        let mut ranks = vec![in alloc; 0; entries.len()]?;
        put_in_order(alloc, entries, &mut ranks, codes)
    }
}

fn mark_one(code: u32, ranks: &mut [u32])
    requires { code ≤ length ranks.old }
    ensures { ranks.new ≡ with_mark ranks.old code }
{
    if code != 0 {
        ranks[code as usize - 1] = 1;
    }
}

// Marks the numbers that the codes have.
fn mark(codes: &[u32], ranks: &mut [u32])
    requires within { All (λ code. code ≤ length ranks.old) codes.now }
    requires none { All (λ rank. rank ≡ 0) ranks.old }
    ensures len { length ranks.new ≡ length ranks.old }
    ensures marks { (number : ℕ) → number < length ranks.new
        → 0 < slice_index_or ranks.new number 0 ↔ Contains codes.now (suc number) }
{
    for code in codes {
        mark_one(*code, ranks);
    }
}

// The last of the values.
fn last_of(values: &Texts) -> Option<&str>
    ensures { option_map (λ text. text.now) result ≡ value_at values.now (length values.now) }
{
    match values.len() {
        0 => None,
        len => Some(values.get(len - 1)),
    }
}

// Puts a text after the values where its number has a mark, unless it is the last of them, and writes its place over
// that.
fn place_one(
    text: &str,
    number: u32,
    values: &mut Texts,
    ranks: &mut [u32],
) -> Result<(), AllocError>
    requires low { 1 ≤ number }
    requires high { number ≤ length ranks.old }
    requires fits { length values.old + 1 < 2 ^ 32 }
    ensures skips { slice_index_or ranks.old (number - 1) 0 ≡ 0
        → OnOk result ((values.new ≡ values.old) × (ranks.new ≡ ranks.old)) }
    ensures again { 0 < slice_index_or ranks.old (number - 1) 0
        → value_at values.old (length values.old) ≡ Some text.now
        → OnOk result ((values.new ≡ values.old) × (ranks.new ≡ set ranks.old (number - 1) (length values.old))) }
    ensures takes { 0 < slice_index_or ranks.old (number - 1) 0
        → value_at values.old (length values.old) ≢ Some text.now
        → OnOk result ((values.new ≡ values.old ++ text.now ∷ [])
        × (ranks.new ≡ set ranks.old (number - 1) (suc (length values.old)))) }
{
    let place = number as usize - 1;
    if ranks[place] == 0 {
        return Ok(());
    }
    if !is_text(last_of(values), text) {
        values.push(text)?;
    }
    ranks[place] = values.len() as u32;
    Ok(())
}

// The texts, each once, those with a mark. Their places go over the marks.
fn place(alloc: Global, entries: &[(String, u32)], ranks: &mut [u32]) -> Result<Texts, AllocError>
    requires within { All (λ entry. (1 ≤ entry.1) × (entry.1 ≤ length ranks.old)) entries.now }
    requires fits { length entries.now < 2 ^ 32 }
    ensures len { length ranks.new ≡ length ranks.old }
    ensures places { IfOk result (λ values. (texts : List (List ℕ)) (codes : List ℕ)
        → HavePlaces texts codes entries.now [] ranks.old → HavePlaces texts codes [] values ranks.new) }
{
    let mut values = Texts::new(alloc);
    for entry in entries {
        place_one(entry.0.as_str(), entry.1, &mut values, ranks)?;
    }
    Ok(values)
}

fn rank_one(code: u32, ranks: &[u32]) -> u32
    requires { code ≤ length ranks.now }
    ensures { result ≡ code_by_rank ranks.now code }
{
    match code {
        0 => 0,
        code => ranks[code as usize - 1],
    }
}

// The codes by these ranks.
fn rank(codes: &mut [u32], ranks: &[u32])
    requires { All (λ code. code ≤ length ranks.now) codes.old }
    ensures { codes.new ≡ map (code_by_rank ranks.now) codes.old }
{
    for place in 0..codes.len() {
        codes[place] = rank_one(codes[place], ranks);
    }
}

// The texts that the codes stand for, in order. The codes become those among these texts.
fn put_in_order(
    alloc: Global,
    mut entries: Vec<(String, u32)>,
    ranks: &mut [u32],
    codes: &mut [u32],
) -> Result<Texts, AllocError>
    requires numbers { AreNumbered entries.items }
    requires within { All (λ code. code ≤ length (texts_in entries.items)) codes.old }
    requires long { length ranks.old ≡ length entries.items }
    requires fits { length entries.items < 2 ^ 32 }
    requires zero { All (λ rank. rank ≡ 0) ranks.old }
    ensures { IfOk result (λ values. HavePlaces (texts_in entries.items) codes.old [] values ranks.new
        × (codes.new ≡ map (code_by_rank ranks.new) codes.old)) }
{
    mark(codes, ranks);
    entries.sort_unstable();
    let values = place(alloc, &entries, ranks)?;
    rank(codes, ranks);
    Ok(values)
}
