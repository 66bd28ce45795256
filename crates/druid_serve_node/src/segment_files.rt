//! Segment files, loaded in the order of their names. As many as a node has threads are read one after another, decoded at the same
//! time, and loaded each in its turn: so the history, the log and the file at which a start ends are those of one thread.
ghost use Rattle.std.specs.Prelude.{◌≡◌, ◌≤◌, true, All, IsOk, IfOk, IfErr, IfSome, OnOk, length, map, filter, string_bytes};
ghost use Rattle.std.specs.List.{AllZip};
ghost use Rattle.druid_folder.specs.Folder.{IsOwnFault, names_of};
ghost use Rattle.druid_node.specs.declared.fault.NodeFault.{NodeFault as Refusal};
ghost use Rattle.druid_serve_base.specs.Faults.{of_node, NamesFile};
ghost use Rattle.druid_serve_node.specs.Faults.{IsOfLoad};
ghost use Rattle.druid_serve_node.specs.Files.{is_segment_file, IsTaken};
ghost use Rattle.druid_serve_node.specs.SegmentFiles.{IsRead, IsDecodedOf, IsFound};

use crate::known_files::{KnownFiles, is_segment_file};
use crate::reporter::Reporter;
use druid_folder::{Folder, StoreFault};
use druid_node::{DataNode, Incarnation, NodeFault, decode_file};
use druid_segment_descriptor::Mark;
use druid_segment_rows::Segment;
use druid_serve_base::StartFault;
use std::alloc::{AllocError, Global};
use std::sync::Wait;
use std::thread::{Threads, map_vec};
use std::time::Clock;

// So many bytes are decoded in less time than threads take to start.
const SMALL: usize = 65_536;

// What a folder gave for a file.
#[derive(Drop)]
struct ReadFile<'a> {
    name: &'a str,
    read: Result<Option<Vec<u8>>, StoreFault>,
}

// The segment of a file and how many bytes that has, or why there is none.
#[derive(Drop)]
struct DecodedFile<'a> {
    name: &'a str,
    segment: Result<(Segment, usize), NodeFault>,
}

// Leaves the names of segment files.
pub(crate) fn keep_segment_files(names: &mut Vec<String>)
    ensures { names.new.items ≡ filter (λ name. is_segment_file (string_bytes name)) names.old.items }
{
    names.retain(|name| is_segment_file(name.as_str()));
}

// What a folder gives for files of these names.
fn read_files<'a, F: Folder>(
    alloc: Global,
    folder: &mut F,
    names: &'a [String],
) -> Result<Vec<ReadFile<'a>>, AllocError>
    ensures names { IfOk result (λ files. map (λ f. f.name.now) files.items ≡ names_of names.now) }
    ensures own { IfOk result (λ files. All (λ f. IfErr f.read IsOwnFault) files.items) }
    ensures read { F.is_honest folder.new → IfOk result (λ files. All (IsRead (F.content folder.old)) files.items) }
    ensures content { F.is_honest folder.new → F.content folder.new ≡ F.content folder.old }
    ensures honest { F.is_honest folder.new → F.is_honest folder.old }
{
    let mut files = Vec::with_capacity(alloc, names.len())?;
    for name in names {
        let read = folder.read(alloc, name.as_str());
        files.push(ReadFile {
            name: name.as_str(),
            read,
        })?;
    }
    Ok(files)
}

// The segment of a file that was read.
fn decode(alloc: Global, file: ReadFile<'_>) -> DecodedFile<'_>
    requires { IfErr file.read IsOwnFault }
    ensures { IsDecodedOf file.entry result }
{
    DecodedFile {
        name: file.name,
        segment: decode_file(alloc, file.name, &file.read),
    }
}

// Loads a file that was decoded, and knows it as loaded.
fn load_one<R: Wait + Clock, I: Incarnation>(
    rt: &R,
    alloc: Global,
    node: &DataNode<I>,
    file: DecodedFile<'_>,
    known: &mut KnownFiles,
    reporter: &mut Reporter,
    seen: &mut Mark,
) -> Result<(), StartFault>
    ensures ok { OnOk result (IsOk file.entry.segment) }
    ensures own { OnOk result (seen.new.incarnation ≡ I.number) }
    ensures cause { IfErr result (λ start. (why : Refusal) × (start.fault ≡ of_node why) × IfSome start.cause (NamesFile file.entry.name.now why)) }
{
    let DecodedFile { name, segment } = file;
    let loaded = match segment {
        Ok((segment, bytes)) => node.load_segment(rt, segment, bytes, seen),
        Err(fault) => Err(fault),
    };
    let loaded = match loaded {
        Ok(loaded) => loaded,
        Err(fault) => {
            reporter.refuse(rt, name, &fault);
            return Err(StartFault::of_file(alloc, name, &fault));
        }
    };
    reporter.load(rt, name);
    if known.load(name, loaded).is_err() {
        return Err(StartFault::of_file(alloc, name, &NodeFault::Memory));
    }
    Ok(())
}

// Loads files that were decoded, one after another.
fn load_decoded<R: Wait + Clock, I: Incarnation>(
    rt: &R,
    alloc: Global,
    node: &DataNode<I>,
    files: Vec<DecodedFile<'_>>,
    known: &mut KnownFiles,
    reporter: &mut Reporter,
    seen: &mut Mark,
) -> Result<(), StartFault>
    requires named { All (λ f. is_segment_file f.name.now ≡ true) files.items }
    ensures ok { OnOk result (All (λ f. IsOk f.segment) files.entry.items) }
    ensures own { seen.old.incarnation ≡ I.number → OnOk result (seen.new.incarnation ≡ I.number) }
    ensures cause { IfErr result (λ start. IfSome start.cause (IsOfLoad start.fault)) }
{
    for file in files {
        load_one(rt, alloc, node, file, known, reporter, seen)?;
    }
    Ok(())
}

// How many bytes these files have together.
fn bytes_in(files: &[ReadFile<'_>]) -> usize {
    let mut bytes = 0usize;
    for file in files {
        if let Ok(Some(found)) = &file.read {
            bytes = bytes.saturating_add(found.len());
        }
    }
    bytes
}

// The segments of files that were read, decoded one after another.
fn decode_in_turn<'a>(
    alloc: Global,
    files: Vec<ReadFile<'a>>,
) -> Result<Vec<DecodedFile<'a>>, AllocError>
    requires { All (λ f. IfErr f.read IsOwnFault) files.items }
    ensures { IfOk result (λ decoded. AllZip IsDecodedOf files.entry.items decoded.items) }
{
    let mut decoded = Vec::with_capacity(alloc, files.len())?;
    for file in files {
        decoded.push(decode(alloc, file))?;
    }
    Ok(decoded)
}

// The same, decoded at the same time.
fn decode_at_once<'a, R: Threads + Sync>(
    rt: &R,
    alloc: Global,
    files: Vec<ReadFile<'a>>,
) -> Result<Vec<DecodedFile<'a>>, AllocError>
    requires { All (λ f. IfErr f.read IsOwnFault) files.items }
    ensures { IfOk result (λ decoded. AllZip IsDecodedOf files.entry.items decoded.items) }
{
    map_vec(
        rt,
        files,
        &|file: ReadFile| -> DecodedFile
            requires { IfErr file.read IsOwnFault }
            ensures { IsDecodedOf file.entry result }
        { decode(alloc, file) },
    )
}

// The segments of files that a folder gives. Small ones are decoded before a thread would have started.
fn decode_files<'a, R: Threads + Sync, F: Folder>(
    rt: &R,
    alloc: Global,
    folder: &mut F,
    names: &'a [String],
) -> Result<Vec<DecodedFile<'a>>, AllocError>
    ensures names { IfOk result (λ files. map (λ f. f.name.now) files.items ≡ names_of names.now) }
    ensures found { F.is_honest folder.new → IfOk result (λ files. All (IsFound (F.content folder.old)) files.items) }
    ensures content { F.is_honest folder.new → F.content folder.new ≡ F.content folder.old }
    ensures honest { F.is_honest folder.new → F.is_honest folder.old }
{
    let files = read_files(alloc, folder, names)?;
    if bytes_in(&files) < SMALL {
        return decode_in_turn(alloc, files);
    }
    decode_at_once(rt, alloc, files)
}

// Loads the files of these names, decoded at the same time.
fn load_front<R: Wait + Threads + Sync + Clock, F: Folder, I: Incarnation>(
    rt: &R,
    alloc: Global,
    node: &DataNode<I>,
    folder: &mut F,
    names: &[String],
    known: &mut KnownFiles,
    reporter: &mut Reporter,
    seen: &mut Mark,
) -> Result<(), StartFault>
    requires some { 1 ≤ length names.now }
    requires named { All (λ name. is_segment_file name ≡ true) (names_of names.now) }
    ensures ok { F.is_honest folder.new → OnOk result (All (IsTaken (F.content folder.old)) (names_of names.now)) }
    ensures content { F.is_honest folder.new → F.content folder.new ≡ F.content folder.old }
    ensures honest { F.is_honest folder.new → F.is_honest folder.old }
    ensures own { seen.old.incarnation ≡ I.number → OnOk result (seen.new.incarnation ≡ I.number) }
    ensures cause { IfErr result (λ start. IfSome start.cause (IsOfLoad start.fault)) }
{
    let Ok(files) = decode_files(rt, alloc, folder, names) else {
        return Err(StartFault::of_file(alloc, names[0].as_str(), &NodeFault::Memory));
    };
    load_decoded(rt, alloc, node, files, known, reporter, seen)
}

// Loads the segment files of these names, in order, and decodes so many of them at a time.
pub(crate) fn load_named<R: Wait + Threads + Sync + Clock, F: Folder, I: Incarnation>(
    rt: &R,
    alloc: Global,
    node: &DataNode<I>,
    folder: &mut F,
    names: &[String],
    threads: usize,
    known: &mut KnownFiles,
    reporter: &mut Reporter,
    seen: &mut Mark,
) -> Result<(), StartFault>
    requires { All (λ name. is_segment_file name ≡ true) (names_of names.now) }
    ensures ok { F.is_honest folder.new → OnOk result (All (IsTaken (F.content folder.old)) (names_of names.now)) }
    ensures content { F.is_honest folder.new → F.content folder.new ≡ F.content folder.old }
    ensures honest { F.is_honest folder.new → F.is_honest folder.old }
    ensures own { seen.old.incarnation ≡ I.number → OnOk result (seen.new.incarnation ≡ I.number) }
    ensures cause { IfErr result (λ start. IfSome start.cause (IsOfLoad start.fault)) }
{
    let mut rest = names;
    while !rest.is_empty() {
        let (front, later) = rest.split_at(threads.max(1).min(rest.len()));
        load_front(rt, alloc, node, folder, front, known, reporter, seen)?;
        rest = later;
    }
    Ok(())
}
