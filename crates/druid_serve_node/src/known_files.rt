//! What a node that watches its folder knows of the segment files in it.
ghost use Rattle.std.specs.Prelude.{◌≡◌, ◌≤◌, [], None, Some, IfOk, OnOk, OnErr, bytes_eq, string_bytes, IsSome};
ghost use Rattle.std.specs.List.{list_any};
ghost use Rattle.std.specs.Option.{option_copied};
ghost use Rattle.druid_folder.specs.Folder.{AreInOrder, names_of};
ghost use Rattle.druid_serve_node.specs.Files.{is_segment_file};
ghost use Rattle.druid_serve_node.specs.Totals.{state_at};
ghost use Rattle.druid_serve_node.specs.Looks.{Notes, state_of, loaded_of, is_due, due_names, gone_names, rest_after, refused_at};

use druid_node::LoadedFile;
use druid_segment_descriptor::Mark;
use druid_telemetry_metrics::NodeState;
use std::alloc::{AllocError, Global};
use std::collections::BTreeMap;
use std::marker::Model;

// The end of the name of a segment file.
const SEGMENT_END: &[u8] = b".seg";

// The most looks from one try of a file that is refused to the next.
const MAX_REST: u64 = 64;

/// What became of a file when it was tried last.
#[derive(Debug, Drop)]
pub enum FileState {
    /// Its segment is loaded.
    Loaded(LoadedFile),
    /// It was refused: the look at which it is tried again, and how many looks lie between.
    Refused(u64, u64),
}

// Whether a file of that name is a segment file.
pub(crate) fn is_segment_file(name: &str) -> bool
    ensures { result ≡ is_segment_file name.now }
{
    name.as_bytes().ends_with(SEGMENT_END)
}

// Whether a file of which that is known is tried at a look.
fn is_due(look: u64, state: Option<&FileState>) -> bool
    ensures { result ≡ is_due look (option_copied state.entry) }
{
    match state {
        None => true,
        Some(FileState::Loaded(_)) => false,
        Some(FileState::Refused(next, _)) => *next <= look,
    }
}

// How many looks a file rests that is refused now.
fn rest_after(state: Option<&FileState>) -> u64
    ensures value { result ≡ rest_after (option_copied state.entry) }
    ensures bound { result ≤ 64 }
{
    match state {
        Some(FileState::Refused(_, rest)) => rest.saturating_add(*rest).min(MAX_REST),
        _ => 1,
    }
}

// What is known of a file that is refused at a look.
fn refused_at(look: u64, state: Option<&FileState>) -> FileState
    ensures { result ≡ refused_at look (option_copied state.entry) }
{
    let rest = rest_after(state);
    FileState::Refused(look.saturating_add(rest), rest)
}

// Whether a name is among those of a folder.
fn has_name(names: &[String], name: &String) -> bool
    requires { AreInOrder (names_of names.now) }
    ensures { result ≡ list_any (bytes_eq (string_bytes name.now)) (names_of names.now) }
{
    match names.binary_search(name) {
        Ok(_) => true,
        Err(_) => false,
    }
}

/// The files that a node has tried, by their names.
#[derive(Drop)]
pub struct KnownFiles {
    alloc: Global,
    files: BTreeMap<String, FileState>,
}

impl Model for KnownFiles {
    ghost use Rattle.std.specs.Prelude.{List};
    ghost use Rattle.druid_serve_node.specs.Looks.{File};
    ghost use Rattle.druid_serve_node.specs.Layout.{files_of};

    ghost Value = { List File };

    ghost view = { λ a. files_of a.files.entries };
}

impl KnownFiles {
    /// No file was tried.
    pub fn new(alloc: Global) -> KnownFiles
        ensures { result ≡ [] }
    {
        KnownFiles {
            alloc,
            files: BTreeMap::new(alloc),
        }
    }

    // What is known of the file of that name.
    #[tactic(auto, using(crate::proofs::KnownLemmas::state_found))]
    fn state(&self, name: &str) -> Option<&FileState>
        ensures { option_copied result ≡ state_of self.now name.now }
    {
        self.files.get(name)
    }

    // Knows this of the file of that name.
    #[tactic(auto, using(crate::proofs::KnownLemmas::noted))]
    fn note(&mut self, name: &str, state: FileState) -> Result<(), AllocError>
        ensures noted { OnOk result (Notes name.now (Some state) self.old self.new) }
        ensures unchanged { OnErr result (self.new ≡ self.old) }
    {
        let name = String::from_str(self.alloc, name)?;
        self.files.insert(name, state)?;
        Ok(())
    }

    /// Knows the file of that name as one that is loaded.
    pub(crate) fn load(&mut self, name: &str, file: LoadedFile) -> Result<(), AllocError>
        ensures noted { OnOk result (Notes name.now (Some (FileState.Loaded file)) self.old self.new) }
        ensures unchanged { OnErr result (self.new ≡ self.old) }
    {
        self.note(name, FileState::Loaded(file))
    }

    /// Knows the file of that name as one that is refused at a look. Then there is room to know it as loaded.
    pub(crate) fn refuse(&mut self, look: u64, name: &str) -> Result<(), AllocError>
        ensures noted { OnOk result (Notes name.now (Some (refused_at look (state_of self.old name.now))) self.old self.new) }
        ensures unchanged { OnErr result (self.new ≡ self.old) }
    {
        let refused = refused_at(look, self.state(name));
        self.note(name, refused)
    }

    /// Knows the file of that name, which is known, as one that is loaded. Does not allocate.
    pub(crate) fn take(&mut self, name: &str, file: LoadedFile)
        requires { IsSome (state_of self.old name.now) }
        ensures { Notes name.now (Some (FileState.Loaded file)) self.old self.new }
    {
        match self.files.get_mut(name) {
            Some(state) => *state = FileState::Loaded(file),
            None => unreachable!(),
        }
    }

    /// What was loaded of the file of that name, if its segment is loaded.
    pub(crate) fn loaded(&self, name: &str) -> Option<&LoadedFile>
        ensures { option_copied result ≡ loaded_of (state_of self.now name.now) }
    {
        match self.state(name)? {
            FileState::Loaded(file) => Some(file),
            FileState::Refused(_, _) => None,
        }
    }

    /// Forgets the file of that name.
    #[tactic(auto, using(crate::proofs::KnownLemmas::noted))]
    pub(crate) fn forget(&mut self, name: &str)
        ensures { Notes name.now None self.old self.new }
    {
        self.files.remove(name);
    }

    /// The names of the files that a look tries, among those that it finds.
    pub(crate) fn due_names(&self, look: u64, found: &[String]) -> Result<Vec<String>, AllocError>
        ensures { IfOk result (λ due. names_of due.items ≡ due_names look self.now (names_of found.now)) }
    {
        let mut due = Vec::new(self.alloc);
        for name in found {
            if is_segment_file(name.as_str()) && is_due(look, self.state(name.as_str())) {
                due.push(name.clone()?)?;
            }
        }
        Ok(due)
    }

    /// The names of the known files that a look does not find.
    pub(crate) fn gone_names(&self, found: &[String]) -> Result<Vec<String>, AllocError>
        requires { AreInOrder (names_of found.now) }
        ensures { IfOk result (λ gone. names_of gone.items ≡ gone_names self.now (names_of found.now)) }
    {
        let mut gone = Vec::new(self.alloc);
        let names = self.files.keys();
        for name in names {
            if !has_name(found, name) {
                gone.push(name.clone()?)?;
            }
        }
        Ok(gone)
    }

    /// What the node reports of its state at that mark: the segments that are loaded, their rows, and the bytes of their files.
    pub(crate) fn node_state(&self, seen: Mark) -> NodeState
        ensures { result ≡ state_at seen self.now }
    {
        let mut segments = 0_u64;
        let mut rows = 0_u64;
        let mut bytes = 0_u64;
        for state in self.files.values() {
            if let FileState::Loaded(file) = state {
                segments = segments.saturating_add(1);
                rows = rows.saturating_add(file.rows() as u64);
                bytes = bytes.saturating_add(file.bytes() as u64);
            }
        }
        NodeState {
            incarnation: seen.incarnation(),
            changes: seen.count(),
            segments,
            rows,
            bytes,
        }
    }
}
