//! A data node: its folder, its sockets and its threads. A tombstone that is refused, but for one
//! of what is served already, ends the start as a segment file does: a config that says that an
//! interval is empty is not half followed.
ghost use Rattle.std.specs.Prelude.{◌≡◌, ◌≤◌, [], Some, length, IfOk, IfErr, IfSome, OnOk, map, string_bytes};
ghost use Rattle.druid_segment_descriptor.specs.Reply.{max_changes};
ghost use Rattle.druid_sync_history.specs.Kept.{StandsFor};
ghost use Rattle.druid_folder_incarnation.specs.Incarnation.{number_file, number_text};
ghost use Rattle.druid_serve_node.specs.Faults.{IsOfRaise, IsOfLoad, IsOfPlacing};
ghost use Rattle.druid_serve_node.specs.Files.{HoldsSegments, IsStarted};

use crate::known_files::KnownFiles;
use crate::latest_mark::{Begun, Latest};
use crate::loader::{Loader, Loading, Tried, start_loader};
use crate::owner::{Owner, own_folder};
use crate::reporter::Reporter;
use crate::segment_files::{keep_segment_files, load_named};
use crate::status::NodeStatus;
use crate::watch::Watch;
use crate::worker::start_worker;
use druid_folder::{Folder, StoreFault};
use druid_folder_incarnation::next_incarnation;
use druid_folder_store::{Device, DiskFolder};
use druid_node::{DataNode, Incarnation, NodeFault, NodeState};
use druid_segment_descriptor::Mark;
use druid_segment_id::SegmentId;
use druid_serve_base::{
    Cause, Gate, Handover, Host, Source, StartFault, Telemetry, listen, start_status,
};
use druid_serve_config::NodeConfig;
use druid_sync_history::HistoryFault;
use druid_telemetry_log::Log;
use druid_telemetry_metrics::NodeMeter;
use std::alloc::{AllocError, Global};
use std::fs::File;
use std::marker::Brand;
use std::net::{Net, TcpListener, TcpStream};
use std::rt::Files;
use std::sync::{Arc, Wait};
use std::thread::Threads;
use std::time::Clock;

// The copies of texts.
fn copies_of(alloc: Global, texts: &[String]) -> Result<Vec<String>, AllocError>
    ensures { IfOk result (λ copies. map string_bytes copies.items ≡ map string_bytes texts.now) }
{
    let mut copies = Vec::with_capacity(alloc, texts.len())?;
    for text in texts {
        copies.push(String::from_str(alloc, text.as_str())?)?;
    }
    Ok(copies)
}

// Loads the segment files of a folder, in the order of their names, and decodes so many of them at a time.
fn load_files<R: Wait + Threads + Sync + Clock, F: Folder, I: Incarnation>(
    rt: &R,
    alloc: Global,
    node: &DataNode<I>,
    folder: &mut F,
    threads: usize,
    known: &mut KnownFiles,
    reporter: &mut Reporter,
    seen: &mut Mark,
) -> Result<(), StartFault>
    ensures ok { F.is_honest folder.new → OnOk result (HoldsSegments (F.content folder.new)) }
    ensures own { seen.old.incarnation ≡ I.number → OnOk result (seen.new.incarnation ≡ I.number) }
    ensures cause { IfErr result (λ start. IfSome start.cause (IsOfLoad start.fault)) }
{
    let mut names = match folder.list(alloc) {
        Ok(names) => names,
        Err(fault) => return Err(StartFault::of_store(fault, Cause::Names(fault))),
    };
    keep_segment_files(&mut names);
    load_named(
        rt, alloc, node, folder, &names, threads, known, reporter, seen,
    )
}

// Places a tombstone; one that is served already is passed over.
fn place_one<R: Wait, I: Incarnation>(
    rt: &R,
    node: &DataNode<I>,
    id: SegmentId,
    seen: &mut Mark,
) -> Result<(), NodeFault>
    ensures own { seen.old.incarnation ≡ I.number → seen.new.incarnation ≡ I.number }
{
    match node.place_tombstone(rt, id, seen) {
        Ok(()) => Ok(()),
        Err(NodeFault::History(HistoryFault::Served)) => Ok(()),
        Err(fault) => Err(fault),
    }
}

// Places the tombstones of a config, in order.
fn place_tombstones<R: Wait, I: Incarnation>(
    rt: &R,
    node: &DataNode<I>,
    ids: &[SegmentId],
    seen: &mut Mark,
) -> Result<(), StartFault>
    ensures own { seen.old.incarnation ≡ I.number → seen.new.incarnation ≡ I.number }
    ensures cause { IfErr result (λ start. IfSome start.cause (IsOfPlacing (length ids.now) start.fault)) }
{
    for place in 0..ids.len() {
        let Ok(id) = ids[place].clone() else {
            return Err(StartFault::device(Cause::Memory));
        };
        if let Err(fault) = place_one(rt, node, id, seen) {
            return Err(StartFault::of_tombstone(place, &fault));
        }
    }
    Ok(())
}

// The state in which a node of a folder starts: it raises the incarnation, and reads no segment.
fn first_state<F: Folder>(
    alloc: Global,
    folder: &mut F,
    kept: usize,
) -> Result<NodeState, StartFault>
    requires some { 1 ≤ kept }
    requires few { kept ≤ max_changes }
    ensures next { F.is_honest folder.new
        → IfOk result (λ state. IsStarted (F.content folder.old number_file) (F.content folder.new number_file) state.history.incarnation) }
    ensures kept { IfOk result (λ state. state.history.limit ≡ kept) }
    ensures nothing { IfOk result (λ state. StandsFor state.history [] × (state.held ≡ [])) }
    ensures cause { IfErr result (λ start. IfSome start.cause (IsOfRaise start.fault)) }
{
    let incarnation = match next_incarnation(alloc, folder) {
        Ok(incarnation) => incarnation,
        Err(fault) => return Err(StartFault::of_store(fault, Cause::Incarnation(fault))),
    };
    // A device that lies may give anything.
    if incarnation < 1 {
        let cause = Cause::Incarnation(StoreFault::Device);
        return Err(StartFault::device(cause));
    }
    match NodeState::new(alloc, incarnation, kept) {
        Ok(state) => Ok(state),
        Err(fault) => Err(StartFault {
            fault: fault.into(),
            cause: Some(Cause::Memory),
        }),
    }
}

// A node that goes on from that state and counts a query on so many threads, with the segments of a folder, of which it knows the
// files: so many of them are decoded at a time.
fn load_node<R: Wait + Threads + Sync + Clock, F: Folder, I: Incarnation>(
    rt: &R,
    alloc: Global,
    folder: &mut F,
    state: NodeState,
    threads: usize,
    reporter: Reporter,
) -> Result<LoadedNode<I>, StartFault>
    requires { state.history.incarnation ≡ I.number }
    ensures ok { F.is_honest folder.new → OnOk result (HoldsSegments (F.content folder.new)) }
    ensures own { IfOk result (λ loaded. loaded.seen.incarnation ≡ I.number) }
    ensures cause { IfErr result (λ start. IfSome start.cause (IsOfLoad start.fault)) }
{
    let seen = state.mark();
    let mut loaded = LoadedNode {
        node: DataNode::new(state, threads),
        known: KnownFiles::new(alloc),
        seen,
        reporter,
    };
    load_files(
        rt,
        alloc,
        &loaded.node,
        folder,
        threads,
        &mut loaded.known,
        &mut loaded.reporter,
        &mut loaded.seen,
    )?;
    Ok(loaded)
}

// A node whose segments are loaded: the files that they came from, the mark of the last change, and what tells of it.
#[derive(Drop)]
struct LoadedNode<I: Incarnation> {
    node: DataNode<I>,
    known: KnownFiles,
    seen: Mark,
    reporter: Reporter,
}

// Where a node listens, and the folder that it made its own, if it did.
#[derive(Drop)]
struct Held {
    owner: Option<Owner>,
    listener: TcpListener,
}

// A node that can begin to answer.
#[derive(Drop)]
struct ReadyNode<I: Incarnation> {
    owner: Option<Owner>,
    node: Arc<DataNode<I>, Global>,
    listener: Arc<TcpListener, Global>,
    watch: Watch,
    reporter: Reporter,
}

// What the loading thread of a node works with.
fn loader_of<I: Incarnation, J: Begun>(
    alloc: Global,
    config: &NodeConfig,
    node: &Arc<DataNode<I>, Global>,
    latest: &Arc<Latest<J>, Global>,
    end: &Arc<Handover<Tried>, Global>,
    watch: Watch,
    reporter: Reporter,
) -> Result<Loader<I, J>, StartFault>
    ensures { IfOk result (λ loader. loader.watch ≡ watch) }
{
    Ok(Loader {
        node: Arc::try_clone(node)?,
        latest: Arc::try_clone(latest)?,
        path: String::from_str(alloc, config.folder())?,
        names: copies_of(alloc, config.loads())?,
        rest: config.watch(),
        watch,
        reporter,
        end: Arc::try_clone(end)?,
    })
}

// Starts the thread that loads what comes once the node listens, and gives what tells when the files were tried that come first.
fn start_loading<
    R: Files<File = File> + AllocGlobal + Host + Copy + Send + Sync + 'static,
    L: Device + Send + Sync + 'static,
    I: Incarnation + Send + Sync + 'static,
    J: Begun + Send + Sync + 'static,
>(
    rt: &R,
    alloc: Global,
    config: &NodeConfig,
    node: &Arc<DataNode<I>, Global>,
    latest: &Arc<Latest<J>, Global>,
    watch: Watch,
    reporter: Reporter,
) -> Result<Arc<Handover<Tried>, Global>, StartFault>
where
    R::Dir: Send,
    requires begun { watch.seen ≡ J.mark }
    requires own { J.mark.incarnation ≡ I.number }
{
    let end = Arc::new(alloc, Handover::new())?;
    let loader = loader_of(alloc, config, node, latest, &end, watch, reporter)?;
    start_loader::<R, L, I, J>(*rt, alloc, loader)?;
    Ok(end)
}

// Starts a node's front, where it has one, and the workers that answer.
fn start_answering<
    R: Host + Copy + Send + Sync + 'static,
    I: Incarnation + Send + Sync + 'static,
    J: Begun + Send + Sync + 'static,
>(
    rt: &R,
    alloc: Global,
    config: &NodeConfig,
    telemetry: &Telemetry,
    node: &Arc<DataNode<I>, Global>,
    latest: &Arc<Latest<J>, Global>,
    listener: Arc<TcpListener, Global>,
) -> Result<(), StartFault> {
    // Nobody waits for what a node answered.
    let gate = Arc::new(alloc, Gate::new())?;
    let source = Source::open(rt, alloc, config.front(), listener, &gate)?;
    for _ in 0..config.workers() {
        start_worker(rt, alloc, node, latest, telemetry, &source)?;
    }
    Ok(())
}

// Starts the threads of a node that is ready: the one that loads what comes later, its front, where it has one, and its workers,
// which answer from the mark on that the node has now.
fn start_threads<
    R: Files<File = File> + AllocGlobal + Host + Copy + Send + Sync + 'static,
    L: Device + Send + Sync + 'static,
    I: Incarnation + Send + Sync + 'static,
    J: Begun + Send + Sync + 'static,
>(
    rt: &R,
    alloc: Global,
    config: &NodeConfig,
    telemetry: &Telemetry,
    ready: ReadyNode<I>,
) -> Result<Loading, StartFault>
where
    R::Dir: Send,
    requires begun { ready.watch.seen ≡ J.mark }
    requires own { J.mark.incarnation ≡ I.number }
{
    let ReadyNode {
        owner,
        node,
        listener,
        watch,
        reporter,
    } = ready;
    let latest: Arc<Latest<J>, Global> = Arc::new(alloc, Latest::new(watch.seen()))?;
    let end = start_loading::<R, L, I, J>(rt, alloc, config, &node, &latest, watch, reporter)?;
    start_answering(rt, alloc, config, telemetry, &node, &latest, listener)?;
    Ok(Loading::new(end, owner))
}

// What a node tells of itself: to its log, at its status address, and as files come and go.
fn reporting_of(
    alloc: Global,
    config: &NodeConfig,
    log: &Arc<Log, Global>,
) -> Result<(Telemetry, NodeStatus, Reporter), StartFault> {
    let telemetry = Telemetry::new(alloc, config.name().as_str(), log)?;
    let meter = Arc::new(alloc, NodeMeter::new(alloc)?)?;
    let reporter = Reporter::new(alloc, telemetry.share()?, &meter)?;
    let status = NodeStatus {
        telemetry: telemetry.share()?,
        meter,
    };
    Ok((telemetry, status, reporter))
}

// What is held already, or a listener that begins now.
fn held_or_new<R: Net<Listener = TcpListener, Stream = TcpStream>>(
    rt: &R,
    config: &NodeConfig,
    held: Option<Held>,
) -> Result<Held, StartFault> {
    match held {
        Some(held) => Ok(held),
        None => Ok(Held {
            owner: None,
            listener: listener_of(rt, config)?,
        }),
    }
}

// A node that holds all that it serves at its start, and listens.
fn ready_of<I: Incarnation>(
    alloc: Global,
    loaded: LoadedNode<I>,
    seen: Mark,
    held: Held,
) -> Result<ReadyNode<I>, StartFault>
    ensures { IfOk result (λ ready. ready.watch.seen ≡ seen) }
{
    let LoadedNode {
        node,
        known,
        reporter,
        ..
    } = loaded;
    let Held { owner, listener } = held;
    Ok(ReadyNode {
        owner,
        node: Arc::new(alloc, node)?,
        listener: Arc::new(alloc, listener)?,
        watch: Watch::new(known, seen),
        reporter,
    })
}

// A node that goes on from that state: loads the segment files of its folder, places the config's tombstones, and listens, unless it
// does already.
fn ready_node<
    R: Net<Listener = TcpListener, Stream = TcpStream> + Wait + Threads + Sync + Clock,
    F: Folder,
    I: Incarnation,
>(
    rt: &R,
    alloc: Global,
    config: &NodeConfig,
    reporter: Reporter,
    folder: &mut F,
    state: NodeState,
    held: Option<Held>,
) -> Result<ReadyNode<I>, StartFault>
    requires { state.history.incarnation ≡ I.number }
    ensures { IfOk result (λ ready. ready.watch.seen.incarnation ≡ I.number) }
{
    let threads = config.threads() as usize;
    let loaded: LoadedNode<I> = load_node(rt, alloc, folder, state, threads, reporter)?;
    let mut seen = loaded.seen;
    place_tombstones(rt, &loaded.node, config.tombstones(), &mut seen)?;
    loaded.reporter.note(&loaded.known.node_state(seen));
    let held = held_or_new(rt, config, held)?;
    ready_of(alloc, loaded, seen, held)
}

// Starts a node that goes on from that state, whose incarnation its folder has: makes it ready, and starts its threads.
fn start_from<
    R: Files<File = File>
        + Net<Listener = TcpListener, Stream = TcpStream>
        + AllocGlobal
        + Host
        + Copy
        + Send
        + Sync
        + 'static,
    F: Folder,
    L: Device + Send + Sync + 'static,
    I: Incarnation + Send + Sync + 'static,
>(
    rt: &R,
    alloc: Global,
    config: &NodeConfig,
    log: &Arc<Log, Global>,
    folder: &mut F,
    state: NodeState,
    held: Option<Held>,
) -> Result<Loading, StartFault>
where
    R::Dir: Send,
    requires own { state.history.incarnation ≡ I.number }
    requires has { F.is_honest folder.old → F.content folder.old number_file ≡ Some (number_text state.history.incarnation) }
{
    let (telemetry, status, reporter) = reporting_of(alloc, config, log)?;
    let ready: ReadyNode<I> = ready_node(rt, alloc, config, reporter, folder, state, held)?;
    start_status_of(rt, alloc, config, status)?;
    start_threads::<R, L, I, Brand>(rt, alloc, config, &telemetry, ready)
}

// Starts the thread that answers at a node's status address, where it has one.
fn start_status_of<
    R: Net<Listener = TcpListener, Stream = TcpStream> + Host + Copy + Send + Sync + 'static,
>(rt: &R, alloc: Global, config: &NodeConfig, status: NodeStatus) -> Result<(), StartFault> {
    let Some(address) = config.status() else {
        return Ok(());
    };
    let Ok(listener) = listen(rt, address) else {
        return Err(StartFault::device(Cause::Status));
    };
    start_status(rt, alloc, listener, status)?;
    Ok(())
}

// Where a node listens.
fn listener_of<R: Net<Listener = TcpListener, Stream = TcpStream>>(
    rt: &R,
    config: &NodeConfig,
) -> Result<TcpListener, StartFault> {
    match listen(rt, config.listen()) {
        Ok(listener) => Ok(listener),
        Err(_) => Err(StartFault::device(Cause::Listener)),
    }
}

// Raises the incarnation of a node's folder, and starts the node over it, with what it holds already.
fn start_over<
    R: Files<File = File>
        + Net<Listener = TcpListener, Stream = TcpStream>
        + AllocGlobal
        + Host
        + Copy
        + Send
        + Sync
        + 'static,
    D: Device,
    L: Device + Send + Sync + 'static,
>(
    rt: &R,
    alloc: Global,
    config: &NodeConfig,
    kept: usize,
    log: &Arc<Log, Global>,
    held: Option<Held>,
) -> Result<Loading, StartFault>
where
    R::Dir: Send,
    requires some { 1 ≤ kept }
    requires few { kept ≤ max_changes }
{
    let path = String::from_str(alloc, config.folder())?;
    let mut folder: DiskFolder<R, D> = DiskFolder::new(*rt, path);
    let state = first_state(alloc, &mut folder, kept)?;
    start_from::<R, DiskFolder<R, D>, L, Brand>(rt, alloc, config, log, &mut folder, state, held)
}

/// Starts a data node: raises its incarnation, loads the segment files of its folder, places the config's tombstones, but for
/// those of what is served already, listens, and starts its threads. It gives what tells when the files are tried that come later.
/// A node that watches its folder goes on from then, until the program ends: it loads the segment files that come, and drops the
/// segments whose files are gone. The device `D` is the one under the folder that it makes, and `L` the one under the folder that
/// the thread makes at the same path: the call picks both. What happens to files and connections goes to the log, and where the config
/// names a status address, a thread answers there.
///
/// # Errors
///
/// `BadFolder` or `Device`, by the first of its steps that fails: the incarnation, the files, the
/// tombstones, the listener, the threads (tested). Leaves the folder as its calls did: the
/// incarnation may have risen.
pub fn start_node<
    R: Files<File = File>
        + Net<Listener = TcpListener, Stream = TcpStream>
        + AllocGlobal
        + Host
        + Copy
        + Send
        + Sync
        + 'static,
    D: Device,
    L: Device + Send + Sync + 'static,
>(
    rt: &R,
    alloc: Global,
    config: &NodeConfig,
    kept: usize,
    log: &Arc<Log, Global>,
) -> Result<Loading, StartFault>
where
    R::Dir: Send,
    requires some { 1 ≤ kept }
    requires few { kept ≤ max_changes }
{
    start_over::<R, D, L>(rt, alloc, config, kept, log, None)
}

/// Starts a data node as `start_node` does, but that it listens and makes its folder its own before all else: so of two programs over
/// one config the second is refused its address, and of two over one folder the second is refused the folder, before either raises
/// an incarnation. The folder is its own while what comes of it, a `Loading` or an `EndOfLoads`, is there.
///
/// # Errors
///
/// `Device` of the listener or of the folder, which another node may have: nothing rose (tested);
/// then those of `start_node`.
pub fn start_owner<
    R: Files<File = File>
        + Net<Listener = TcpListener, Stream = TcpStream>
        + AllocGlobal
        + Host
        + Copy
        + Send
        + Sync
        + 'static,
    D: Device,
    L: Device + Send + Sync + 'static,
>(
    rt: &R,
    alloc: Global,
    config: &NodeConfig,
    kept: usize,
    log: &Arc<Log, Global>,
) -> Result<Loading, StartFault>
where
    R::Dir: Send,
    requires some { 1 ≤ kept }
    requires few { kept ≤ max_changes }
{
    let listener = listener_of(rt, config)?;
    let owner = Some(own_folder(rt, config.folder())?);
    let held = Held { owner, listener };
    start_over::<R, D, L>(rt, alloc, config, kept, log, Some(held))
}
