//! A data node, whose lock is held to take what an answer is made of, and not while that is made.
ghost use Rattle.std.specs.Prelude.{◌≡◌, Some, Ok, IfOk, IfErr, OnOk, OnErr, bytes_eq, length};
ghost use Rattle.std.specs.declared.cmp.Ordering.TheVariants.{Less};
ghost use Rattle.druid_segment_descriptor.specs.Mark.{Point, mark_cmp};
ghost use Rattle.druid_sync_history.specs.Kept.{described_named};
ghost use Rattle.druid_segment_rows.specs.Segment.{Segment};
ghost use Rattle.druid_folder.specs.Folder.{IsOwnFault, read_part, bytes_read};
ghost use Rattle.druid_segment_file.specs.Reader.{segment_at};
ghost use Rattle.druid_node.specs.Files.{file_name, named, file_at, reported_as, RefusesFile, IsOfFile, size_of, RefusesBytes, RefusesFound, FailsRead, IsDecoded, RefusesDecode, faults_after_load};
ghost use Rattle.druid_node.specs.State.{Takes, Covers, RefusesToCover, RefusesToDrop};
ghost use Rattle.druid_node.specs.Seen.{Changes, Drops, RefusesChange, IsStale, RefusesLoad, RefusesDrop, RefusesTombstone, AnswersFrom};
ghost use Rattle.druid_http_message.specs.Requests.{path_of};
ghost use Rattle.druid_node.specs.Routes.{RespondsInTurn, TakesMemory, route_of};
ghost use Rattle.druid_node.specs.Questions.{Asks, IsOpen, IsBasisFrom};

use crate::question::{Question, question_of};
use crate::seen_mark::{Answered, Based, StateIn, answer_for};
use crate::{Incarnation, LoadedFile, NodeFault, NodeState};
use druid_folder::{Folder, StoreFault};
use druid_http_message::Request;
use druid_http_wire::Response;
use druid_segment_descriptor::Mark;
use druid_segment_file::{FileFault, segment_of};
use druid_segment_id::SegmentId;
use druid_segment_rows::Segment;
use std::alloc::{AllocError, Global};
use std::sync::{Mutex, Wait};
use std::thread::Threads;

/// A data node: it loads segments from files, places tombstones, and answers requests. Its state is under a lock, so threads may
/// share it.
///
/// A caller of it has a mark of its own, `seen`, which is (0, 0) at first: that of the last state that did what it asked for.
/// A call that is given `seen` never answers Ok from a state whose mark is below it: no later Ok with that `seen` answers from
/// a state before the change. Each mark that a call of it gives is of the incarnation `I`: that of the state that it was made of.
#[derive(Drop)]
pub struct DataNode<I: Incarnation> {
    alloc: Global,
    state: Mutex<StateIn<I>>,
    threads: usize,
}

// What a failed read of a folder tells.
fn read_fault(fault: StoreFault) -> NodeFault
    requires { IsOwnFault fault }
    ensures { FailsRead fault result }
{
    match fault {
        StoreFault::Device => NodeFault::Device,
        StoreFault::BadNumber => unreachable!(),
        StoreFault::AtEnd => unreachable!(),
        StoreFault::BadName => unreachable!(),
        StoreFault::Memory => NodeFault::Memory,
    }
}

// The fault for the bytes of a file.
fn file_fault(fault: FileFault) -> NodeFault
    ensures { result ≡ reported_as fault }
{
    match fault {
        FileFault::Magic => NodeFault::File(FileFault::Magic),
        FileFault::Cut => NodeFault::File(FileFault::Cut),
        FileFault::Field => NodeFault::File(FileFault::Field),
        FileFault::RowOutside => NodeFault::File(FileFault::RowOutside),
        FileFault::TooLong => NodeFault::File(FileFault::TooLong),
        FileFault::Trailing => NodeFault::File(FileFault::Trailing),
        FileFault::Read => NodeFault::File(FileFault::Read),
        FileFault::Write => NodeFault::File(FileFault::Write),
        FileFault::Memory => NodeFault::Memory,
    }
}

// What the request asks of a state. Where memory runs out for that, each state answers out of memory.
fn question_in_turn(alloc: Global, request: &Request) -> Question
    ensures asks { Asks result (λ old new. RespondsInTurn old new request.now) }
    ensures takes { IsOpen result → TakesMemory (route_of (path_of request.now.target)) request.now }
{
    match question_of(alloc, request) {
        Ok(question) => question,
        Err(_) => Question::Settled(Response::out_of_memory()),
    }
}

// Whether a file of that name is the one of the segment with that identifier.
fn is_file_of(alloc: Global, id: &SegmentId, name: &str) -> Result<bool, AllocError>
    ensures { IfOk result (λ same. same ≡ bytes_eq name.now (file_name id.now)) }
{
    let mut text = id.text(alloc)?;
    text.push_str(".seg")?;
    Ok(name == text.as_str())
}

// The segment of a file whose bytes were read.
fn segment_in(alloc: Global, name: &str, bytes: &[u8]) -> Result<Segment, NodeFault>
    ensures ok { IfOk result (λ s. named name.now (segment_at bytes.now) ≡ Ok s) }
    ensures err { IfErr result (RefusesBytes name.now bytes.now) }
{
    let segment = match segment_of(alloc, bytes) {
        Ok(segment) => segment,
        Err(fault) => return Err(file_fault(fault)),
    };
    match is_file_of(alloc, segment.descriptor().id(), name) {
        Ok(true) => Ok(segment),
        Ok(false) => Err(NodeFault::NameDiffers),
        Err(_) => Err(NodeFault::Memory),
    }
}

// How many bytes a folder gave.
fn size_of(found: &Option<Vec<u8>>) -> usize
    ensures { result ≡ size_of (bytes_read found.now) }
{
    match found {
        Some(bytes) => bytes.len(),
        None => 0,
    }
}

// The segment of what a folder gave under that name.
fn found_segment(alloc: Global, name: &str, found: &Option<Vec<u8>>) -> Result<Segment, NodeFault>
    ensures ok { IfOk result (λ s. file_at name.now (bytes_read found.now) ≡ Ok s) }
    ensures err { IfErr result (RefusesFound name.now (bytes_read found.now)) }
{
    match found {
        Some(bytes) => segment_in(alloc, name, bytes),
        None => Err(NodeFault::NoFile),
    }
}

/// The segment of what a folder gave under that name, and how many bytes its file has. It takes no folder and no lock, so that
/// threads decode files at the same time.
///
/// # Errors
///
/// N1, or N9, of the read; then N6; N2 with F1 to F6; N3. N9 may come in place of N3 too.
pub fn decode_file(
    alloc: Global,
    name: &str,
    read: &Result<Option<Vec<u8>>, StoreFault>,
) -> Result<(Segment, usize), NodeFault>
    requires { IfErr read.now IsOwnFault }
    ensures ok { IfOk result (IsDecoded name.now read.now) }
    ensures err { IfErr result (RefusesDecode name.now read.now) }
{
    let found = match read {
        Ok(found) => found,
        Err(fault) => return Err(read_fault(*fault)),
    };
    match found_segment(alloc, name, found) {
        Ok(segment) => Ok((segment, size_of(found))),
        Err(fault) => Err(fault),
    }
}

impl<I: Incarnation> DataNode<I> {
    /// The data node of that state, which counts the segments of one query on so many threads at most, that of the caller among
    /// them. What it answers is the same whatever the number, and 0 is as 1.
    pub fn new(state: NodeState, threads: usize) -> DataNode<I>
        requires { state.history.incarnation ≡ I.number }
    {
        DataNode {
            alloc: state.alloc(),
            state: Mutex::new(StateIn::new(state)),
            threads,
        }
    }

    // The allocator of what it reads.
    pub(crate) fn alloc(&self) -> Global {
        self.alloc
    }

    // What its state gives for the answer to a question, and the state's mark. The lock is held for this alone: for copies of
    // what is replied, and, where an ask freezes what is served, for one of that.
    fn basis_of(&self, rt: &impl Wait, question: Question, seen: Mark) -> Result<Based, NodeFault>
        ensures ok { IfOk result (λ b. IsBasisFrom I.number seen b.mark question b.basis) }
        ensures err { IfErr result (λ fault. (found : Point) × IsStale I.number found seen × (fault ≡ NodeFault.Stale found)) }
    {
        self.state.lock(rt).basis_of(question, seen)
    }

    // What its state answers to a request, and the state's mark. The request is read before the lock is taken, and the answer
    // made after it was given back, of the state as it was then.
    pub(crate) fn respond<R: Wait + Threads>(
        &self,
        rt: &R,
        request: &Request,
        seen: Mark,
    ) -> Result<Answered, NodeFault>
        ensures ok { IfOk result (λ a. AnswersFrom I.number seen a.mark request.now a.response.status a.response.body) }
        ensures err { IfErr result (λ fault. (found : Point) × IsStale I.number found seen × (fault ≡ NodeFault.Stale found)) }
    {
        let question = question_in_turn(self.alloc, request);
        let based = self.basis_of(rt, question, seen)?;
        Ok(answer_for(rt, self.alloc, based, self.threads))
    }

    /// Loads a segment of a file of so many bytes, as `decode_file` gives it, and sees the mark after that; gives the identifier,
    /// by which it is dropped, and how large it is. (The identifier is copied first, so that nothing fails after the load.)
    ///
    /// # Errors
    ///
    /// N8; then those of `NodeState::load`. Leaves `seen`, and the node's state (a clause of a private call).
    pub fn load_segment(
        &self,
        rt: &impl Wait,
        segment: Segment,
        bytes: usize,
        seen: &mut Mark,
    ) -> Result<LoadedFile, NodeFault>
        ensures loaded { IfOk result (λ loaded. (loaded.id ≡ segment.descriptor.id) × (loaded.rows ≡ length segment.rows)
            × Changes I.number (λ old new. Takes old new segment) seen.old seen.new) }
        ensures bytes { IfOk result (λ loaded. loaded.bytes ≡ bytes) }
        ensures raised { OnOk result (mark_cmp seen.old seen.new ≡ Less) }
        ensures own { OnOk result (seen.new.incarnation ≡ I.number) }
        ensures err { IfErr result (RefusesLoad I.number seen.old) }
        ensures unseen { OnErr result (seen.new ≡ seen.old) }
    {
        let Ok(id) = segment.descriptor().id().clone() else {
            return Err(NodeFault::Memory);
        };
        let rows = segment.len();
        if let Err(fault) = self.state.lock(rt).load(segment, seen) {
            return Err(fault);
        }
        Ok(LoadedFile::new(id, rows, bytes))
    }

    /// Loads the segment of the file of that name, of which a folder gives no more than 16 MiB and
    /// a byte, and sees the mark after that.
    ///
    /// # Errors
    ///
    /// N1, or N9 of the read; then N6; N2 with F1 to F6; N3; then N8; then those of
    /// `NodeState::load`. N9 may come in place of N3 and what follows it. Leaves `seen`, the files
    /// of the folder, and the node's state (a clause of a private call).
    pub fn load_file<F: Folder>(
        &self,
        rt: &impl Wait,
        folder: &mut F,
        name: &str,
        seen: &mut Mark,
    ) -> Result<(), NodeFault>
        ensures ok { F.is_honest folder.new
            → OnOk result ((s : Segment) × (file_at name.now (read_part (F.content folder.old name.now)) ≡ Ok s)
            × Changes I.number (λ old new. Takes old new s) seen.old seen.new) }
        ensures raised { OnOk result (mark_cmp seen.old seen.new ≡ Less) }
        ensures own { OnOk result (seen.new.incarnation ≡ I.number) }
        ensures err { F.is_honest folder.new
            → IfErr result (RefusesFile I.number (file_at name.now (read_part (F.content folder.old name.now))) seen.old) }
        ensures never { IfErr result IsOfFile }
        ensures unseen { OnErr result (seen.new ≡ seen.old) }

        ensures content { F.is_honest folder.new → F.content folder.new ≡ F.content folder.old }
        ensures honest { F.is_honest folder.new → F.is_honest folder.old }
        ensures counted { F.faults folder.new ≡ faults_after_load result (F.faults folder.old) }
    {
        self.load_identified(rt, folder, name, seen)?;
        Ok(())
    }

    /// Loads the segment of the file of that name as `load_file` does, and gives its identifier, by which it is dropped, that
    /// whose text and `.seg` the name is, and how large it is.
    ///
    /// # Errors
    ///
    /// Those of `load_file`.
    pub fn load_identified<F: Folder>(
        &self,
        rt: &impl Wait,
        folder: &mut F,
        name: &str,
        seen: &mut Mark,
    ) -> Result<LoadedFile, NodeFault>
        ensures ok { F.is_honest folder.new
            → IfOk result (λ loaded. (s : Segment) × (file_at name.now (read_part (F.content folder.old name.now)) ≡ Ok s)
            × (loaded.id ≡ s.descriptor.id) × (loaded.rows ≡ length s.rows)
            × Changes I.number (λ old new. Takes old new s) seen.old seen.new) }
        ensures bytes { F.is_honest folder.new
            → IfOk result (λ loaded. loaded.bytes ≡ size_of (read_part (F.content folder.old name.now))) }
        ensures id { IfOk result (λ loaded. name.now ≡ file_name loaded.id) }
        ensures raised { OnOk result (mark_cmp seen.old seen.new ≡ Less) }
        ensures own { OnOk result (seen.new.incarnation ≡ I.number) }
        ensures err { F.is_honest folder.new
            → IfErr result (RefusesFile I.number (file_at name.now (read_part (F.content folder.old name.now))) seen.old) }
        ensures never { IfErr result IsOfFile }
        ensures unseen { OnErr result (seen.new ≡ seen.old) }

        ensures content { F.is_honest folder.new → F.content folder.new ≡ F.content folder.old }
        ensures honest { F.is_honest folder.new → F.is_honest folder.old }
        ensures counted { F.faults folder.new ≡ faults_after_load result (F.faults folder.old) }
    {
        let given = folder.read(self.alloc, name);
        match decode_file(self.alloc, name, &given) {
            Ok((segment, bytes)) => self.load_segment(rt, segment, bytes, seen),
            Err(fault) => Err(fault),
        }
    }

    /// Places the tombstone of that identifier among what the node serves, and sees the mark after
    /// that.
    ///
    /// # Errors
    ///
    /// N7; then N8; then the others of `NodeState::place_tombstone`. Leaves `seen`, and the node's
    /// state (a clause of a private call).
    pub fn place_tombstone(
        &self,
        rt: &impl Wait,
        id: SegmentId,
        seen: &mut Mark,
    ) -> Result<(), NodeFault>
        ensures changed { OnOk result (Changes I.number (λ old new. Covers old new id) seen.old seen.new) }
        ensures raised { OnOk result (mark_cmp seen.old seen.new ≡ Less) }
        ensures own { OnOk result (seen.new.incarnation ≡ I.number) }
        ensures err { IfErr result (RefusesTombstone I.number id seen.old) }
        ensures cause { (id.partition ≡ 0)
            → IfErr result (RefusesChange I.number (λ old. RefusesToCover old.history id) seen.old) }
        ensures unseen { OnErr result (seen.new ≡ seen.old) }
    {
        if id.partition() != 0 {
            return Err(NodeFault::NotPartitionZero);
        }
        self.state.lock(rt).place_tombstone(id, seen)
    }

    /// Drops a segment or a tombstone, and sees the mark after that.
    ///
    /// # Errors
    ///
    /// N8; then those of `NodeState::drop_segment`. Leaves `seen`, and the node's state (a clause of
    /// a private call).
    pub fn drop_segment(
        &self,
        rt: &impl Wait,
        id: &SegmentId,
        seen: &mut Mark,
    ) -> Result<(), NodeFault>
        ensures changed { OnOk result (Changes I.number (λ old new. Drops old new id.now) seen.old seen.new) }
        ensures raised { OnOk result (mark_cmp seen.old seen.new ≡ Less) }
        ensures own { OnOk result (seen.new.incarnation ≡ I.number) }
        ensures err { IfErr result (RefusesDrop I.number seen.old) }
        ensures cause { IfErr result (RefusesChange I.number
            (λ old. RefusesToDrop old.history (described_named id.now old.history.set)) seen.old) }
        ensures unseen { OnErr result (seen.new ≡ seen.old) }
    {
        self.state.lock(rt).drop_segment(id, seen)
    }
}
