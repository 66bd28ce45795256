//! The threads of a broker that answer.
ghost use Rattle.std.specs.Prelude.{◌≡◌, ◌≤◌, ◌+◌, ◌-◌, ◌^◌, ℕ, List, [], Some, min, if◌then◌else◌, IfOk, IfSome, length, vec_len};
ghost use Rattle.druid_serve_config.specs.Configs.{Node};
ghost use Rattle.druid_inventory.specs.Entry.{max_nodes};
ghost use Rattle.druid_serve_front.specs.Answers.{IsAnswer};
ghost use Rattle.druid_serve.specs.Links.{LeadTo};
ghost use Rattle.druid_serve.specs.Answers.{IsServedBy};
ghost use mathlib.Core.List.{IsPrefix};

use crate::links::{NodeLink, NodeList, links_to};
use crate::status::FollowedNode;
use druid_broker::{Routes, serve_one};
use druid_broker_scatter::AilingLast;
use druid_http_message::WireFault;
use druid_inventory_views::{Publication, Publisher, View};
use druid_link_health::{Health, monotonic_millis};
use druid_segment_descriptor::NodeNo;
use druid_serve_base::{DeviceFailed, Gate, Host, Source, Telemetry, answer_each, limit};
use druid_serve_config::NodeConfig;
use druid_serve_front::{Job, Jobs, answer_jobs, close_answered};
use druid_telemetry_log::Event;
use druid_telemetry_metrics::CountedWriter;
use std::alloc::Global;
use std::io::{BufRead, BufReader, BufWriter, Write};
use std::net::{Net, TcpListener, TcpStream};
use std::sync::{Arc, Mutex, Wait};
use std::thread;
use std::time::Clock;

/// The publisher of a broker, which its threads share.
pub(crate) type Shared<J, R> = Arc<Mutex<Publisher<J, R>>, Global>;

/// What a worker answers with.
#[derive(Drop)]
pub(crate) struct Worker<R: Net + Clock + Wait + Drop, J: Publication> {
    view: View<J>,
    links: Vec<NodeLink<R>>,
    // Where its links note how exchanges end.
    health: Arc<Health, Global>,
    // The requests that were answered.
    turn: u64,
    // Views end with their publisher, so each worker holds it.
    publisher: Shared<J, R>,
    ghost linked: { length J.opening ≤ vec_len links },
}

// What each request is answered by, whichever worker has it: where its path leads, where it is logged and counted, and the nodes
// by their numbers.
#[derive(Drop)]
struct Service {
    routes: Routes,
    telemetry: Telemetry,
    gate: Arc<Gate, Global>,
    nodes: Arc<Vec<FollowedNode>, Global>,
}

impl Service {
    // That of another thread.
    fn new(
        alloc: Global,
        telemetry: &Telemetry,
        gate: &Arc<Gate, Global>,
        nodes: &Arc<Vec<FollowedNode>, Global>,
    ) -> Result<Service, DeviceFailed> {
        let Ok(routes) = Routes::new(alloc) else {
            return Err(DeviceFailed);
        };
        Ok(Service {
            routes,
            telemetry: telemetry.share()?,
            gate: Arc::try_clone(gate)?,
            nodes: Arc::try_clone(nodes)?,
        })
    }

    // Logs how many exchanges with a node met a limit of 16 MiB, where some did.
    fn report_met<R: Wait + Clock>(
        &self,
        rt: &R,
        alloc: Global,
        node: &FollowedNode,
        code: &str,
        exchanges: u64,
    ) {
        if exchanges > 0 {
            let event = Event::Oversize {
                node: node.name.as_str(),
                code,
                exchanges,
            };
            self.telemetry.emit(rt, alloc, &event);
        }
    }

    // Logs what met a limit of 16 MiB since that was last logged, of each node.
    fn report_oversize<R: Wait + Clock>(&self, rt: &R, alloc: Global, health: &Health) {
        let mut number: NodeNo = 0;
        let nodes: &[FollowedNode] = &self.nodes;
        for node in nodes {
            if let Some(oversize) = health.take_oversize(number) {
                self.report_met(rt, alloc, node, "TooLarge", oversize.answers);
                self.report_met(rt, alloc, node, "X7", oversize.questions);
            }
            number = number.saturating_add(1);
        }
    }
}

// Reads a request and writes its answer by what the worker has, as `serve_one` does: replicas on nodes that failed lately go last.
#[tactic(auto, using(crate::proofs::LinkLemmas::answered_lead))]
fn serve<
    R: Net<Listener = TcpListener, Stream = TcpStream> + Host + Copy + Send + Sync,
    J: Publication,
    B: BufRead,
    W: Write,
>(
    rt: &R,
    alloc: Global,
    service: &Service,
    worker: &mut Worker<R, J>,
    reader: &mut B,
    writer: &mut W,
) -> Result<u16, WireFault>
    ensures served { IfOk result (IsServedBy J.opening worker.old.turn worker.old.view worker.new.view worker.old.links.items worker.new.links.items
        (B.remaining reader.old) (B.remaining reader.new) (W.contents writer.old) (W.contents writer.new)) }
    ensures view { IsPrefix worker.old.view worker.new.view }
    ensures turn { worker.new.turn ≡ worker.old.turn }
    ensures leads { (nodes : List Node) → LeadTo nodes worker.old.links.items → LeadTo nodes worker.new.links.items }
{
    let nodes = worker.health.snapshot(monotonic_millis(rt));
    let served = serve_one(
        rt,
        alloc,
        &service.routes,
        reader,
        writer,
        &mut worker.view,
        worker.turn,
        &AilingLast::new(nodes.ailing()),
        &mut worker.links,
    );
    worker.health.release(nodes);
    service.report_oversize(rt, alloc, &worker.health);
    served
}

// Answers a request and sends all of the answer, and gives the status that was written, if it was.
fn send<
    R: Net<Listener = TcpListener, Stream = TcpStream> + Host + Copy + Send + Sync,
    J: Publication,
    B: BufRead,
    W: Write,
>(
    rt: &R,
    alloc: Global,
    service: &Service,
    worker: &mut Worker<R, J>,
    reader: &mut B,
    writer: &mut W,
) -> Option<u16>
    ensures view { IsPrefix worker.old.view worker.new.view }
    ensures turn { worker.new.turn ≡ worker.old.turn }
    ensures leads { (nodes : List Node) → LeadTo nodes worker.old.links.items → LeadTo nodes worker.new.links.items }
{
    let status = serve(rt, alloc, service, worker, reader, writer).ok()?;
    writer.flush().ok()?;
    Some(status)
}

// Answers one connection, and gives the status that was written, if an answer was.
fn answer<
    R: Net<Listener = TcpListener, Stream = TcpStream> + Host + Copy + Send + Sync,
    J: Publication,
>(
    rt: &R,
    alloc: Global,
    service: &Service,
    worker: &mut Worker<R, J>,
    stream: &TcpStream,
) -> Option<u16>
    ensures view { IsPrefix worker.old.view worker.new.view }
    ensures turn { worker.new.turn ≡ worker.old.turn }
    ensures leads { (nodes : List Node) → LeadTo nodes worker.old.links.items → LeadTo nodes worker.new.links.items }
{
    if !limit(stream) {
        return None;
    }
    let Ok(mut reader) = BufReader::new(alloc, stream) else {
        return None;
    };
    let Ok(mut writer) = BufWriter::new(alloc, CountedWriter::new(stream)) else {
        return None;
    };
    let Some(taken) = service.telemetry.take(rt, &mut reader) else {
        return None;
    };
    let status = send(rt, alloc, service, worker, &mut reader, &mut writer);
    let written = writer.get_ref().written();
    service.telemetry.end(rt, alloc, &taken, status, written);
    status
}

// Answers a connection, counts it once it is closed, and tells whether it was answered: then the next has the next turn.
fn take<
    R: Net<Listener = TcpListener, Stream = TcpStream> + Host + Copy + Send + Sync,
    J: Publication,
>(rt: &R, alloc: Global, service: &Service, worker: &mut Worker<R, J>, stream: TcpStream) -> bool
    ensures view { IsPrefix worker.old.view worker.new.view }
    ensures leads { (nodes : List Node) → LeadTo nodes worker.old.links.items → LeadTo nodes worker.new.links.items }
    ensures turn { worker.new.turn ≡ (if result then min (worker.old.turn + 1) (2 ^ 64 - 1) else worker.old.turn) }
{
    let counts = service.gate.is_open(rt);
    let Some(status) = answer(rt, alloc, service, worker, &stream) else {
        return false;
    };
    worker.turn = worker.turn.saturating_add(1);
    close_answered(rt, status, stream);
    if counts {
        service.gate.add(rt);
    }
    true
}

// Answers connections, and gives the worker as it is by then.
fn answer_connections<
    R: Net<Listener = TcpListener, Stream = TcpStream> + Host + Copy + Send + Sync,
    J: Publication,
>(
    rt: &R,
    alloc: Global,
    service: &Service,
    worker: Worker<R, J>,
    listener: &TcpListener,
) -> Worker<R, J>
    ensures view { IsPrefix worker.view result.view }
    ensures leads { (nodes : List Node) → LeadTo nodes worker.links.items → LeadTo nodes result.links.items }
{
    answer_each(
        rt,
        listener,
        worker,
        |worker: Worker<R, J>, stream: TcpStream|
            ensures { IsPrefix worker.view result.view
                × ((nodes : List Node) → LeadTo nodes worker.links.items → LeadTo nodes result.links.items) }
        {
            let mut worker = worker;
            take(rt, alloc, service, &mut worker, stream);
            worker
        },
    )
}

// Answers the bytes of a request that a front thread read: the status of the answer, and its text. None where memory runs out before
// the answer stands.
#[tactic(auto, using(druid_serve_front::proofs::AnswerLemmas::served_is_answer))]
fn answer_bytes<
    R: Net<Listener = TcpListener, Stream = TcpStream> + Host + Copy + Send + Sync,
    J: Publication,
>(
    rt: &R,
    alloc: Global,
    service: &Service,
    worker: &mut Worker<R, J>,
    request: &[u8],
) -> Option<(u16, Vec<u8>)>
    ensures served { IfSome result (λ sent. (rest : List ℕ) × IsServedBy J.opening worker.old.turn worker.old.view worker.new.view
        worker.old.links.items worker.new.links.items (Some request.now) (Some rest) (Some []) (Some sent.1.items) sent.0) }
    ensures answer { IfSome result (λ sent. IsAnswer sent.0 sent.1.items) }
    ensures view { IsPrefix worker.old.view worker.new.view }
    ensures turn { worker.new.turn ≡ worker.old.turn }
    ensures leads { (nodes : List Node) → LeadTo nodes worker.old.links.items → LeadTo nodes worker.new.links.items }
{
    let taken = service.telemetry.take_whole(rt, request);
    let mut reader = request;
    let mut bytes = Vec::new(alloc);
    match serve(rt, alloc, service, worker, &mut reader, &mut bytes) {
        Ok(status) => {
            let written = bytes.len() as u64;
            service
                .telemetry
                .end(rt, alloc, &taken, Some(status), written);
            Some((status, bytes))
        }
        Err(_) => {
            service.telemetry.end(rt, alloc, &taken, None, 0);
            None
        }
    }
}

// Answers a job, and tells whether it was answered: then the next has the next turn.
fn take_job<
    R: Net<Listener = TcpListener, Stream = TcpStream> + Host + Copy + Send + Sync,
    J: Publication,
>(rt: &R, alloc: Global, service: &Service, worker: &mut Worker<R, J>, job: Job) -> bool
    ensures view { IsPrefix worker.old.view worker.new.view }
    ensures leads { (nodes : List Node) → LeadTo nodes worker.old.links.items → LeadTo nodes worker.new.links.items }
    ensures turn { worker.new.turn ≡ (if result then min (worker.old.turn + 1) (2 ^ 64 - 1) else worker.old.turn) }
{
    let request = job.request();
    let answer = answer_bytes(rt, alloc, service, worker, request);
    let Some((status, bytes)) = answer else {
        return false;
    };
    worker.turn = worker.turn.saturating_add(1);
    job.answer(rt, status, bytes);
    true
}

// Answers the jobs of a front, and gives the worker as it is by then.
fn answer_front<
    R: Net<Listener = TcpListener, Stream = TcpStream> + Host + Copy + Send + Sync,
    J: Publication,
>(rt: &R, alloc: Global, service: &Service, worker: Worker<R, J>, jobs: &Jobs) -> Worker<R, J>
    ensures view { IsPrefix worker.view result.view }
    ensures leads { (nodes : List Node) → LeadTo nodes worker.links.items → LeadTo nodes result.links.items }
{
    answer_jobs(
        rt,
        jobs,
        worker,
        |worker: Worker<R, J>, job: Job|
            ensures { IsPrefix worker.view result.view
                × ((nodes : List Node) → LeadTo nodes worker.links.items → LeadTo nodes result.links.items) }
        {
            let mut worker = worker;
            take_job(rt, alloc, service, &mut worker, job);
            worker
        },
    )
}

// Answers what comes, and gives the worker as it is by then.
fn work<
    R: Net<Listener = TcpListener, Stream = TcpStream> + Host + Copy + Send + Sync,
    J: Publication,
>(rt: &R, alloc: Global, service: &Service, worker: Worker<R, J>, source: &Source) -> Worker<R, J>
    ensures view { IsPrefix worker.view result.view }
    ensures leads { (nodes : List Node) → LeadTo nodes worker.links.items → LeadTo nodes result.links.items }
{
    match source {
        Source::Connections(listener) => answer_connections(rt, alloc, service, worker, listener),
        Source::Front(jobs) => answer_front(rt, alloc, service, worker, jobs),
    }
}

// What a worker is made from. (A thread has it as a type parameter: that a worker may go to it is not found beside the routes, and is
// alone.)
pub(crate) trait IntoWorker<R: Net + Clock + Wait + Drop, J: Publication> {
    ghost use Rattle.std.specs.Prelude.{◌≡◌, List};
    ghost use Rattle.druid_serve.specs.Links.{NodeLinkValue};

    // The worker's links.
    ghost links: { Self → List NodeLinkValue };

    fn into_worker(self) -> Worker<R, J>
        ensures { result.links.items ≡ links self };
}

impl<R: Net + Clock + Wait + Drop, J: Publication> IntoWorker<R, J> for Worker<R, J> {
    ghost links = { λ worker. worker.links.items };

    fn into_worker(self) -> Worker<R, J> {
        self
    }
}

/// Starts a thread that answers what comes of a source.
pub(crate) fn start_worker<
    R: Net<Listener = TcpListener, Stream = TcpStream> + Host + Copy + Send + Sync + 'static,
    J: Publication + Send + Sync + 'static,
    C: NodeList,
    A: IntoWorker<R, J> + Drop + Send + 'static,
>(
    rt: &R,
    alloc: Global,
    worker: A,
    telemetry: &Telemetry,
    gate: &Arc<Gate, Global>,
    nodes: &Arc<Vec<FollowedNode>, Global>,
    source: &Source,
) -> Result<(), DeviceFailed>
    requires leads { LeadTo C.nodes (A.links worker) }
{
    let rt = *rt;
    let service = Service::new(alloc, telemetry, gate, nodes)?;
    let source = source.share()?;
    let job = move || drop(work(&rt, alloc, &service, worker.into_worker(), &source));
    match thread::spawn(&rt, job) {
        Ok(thread) => {
            drop(thread);
            Ok(())
        }
        Err(_) => Err(DeviceFailed),
    }
}

/// What a worker of a broker with that view answers with: a link to each of these nodes, and the first turn.
#[tactic(auto, using(crate::proofs::LinkLemmas::leads_from))]
pub(crate) fn worker_of<R: Net + Clock + Wait + Copy, J: Publication>(
    rt: &R,
    alloc: Global,
    view: View<J>,
    health: &Arc<Health, Global>,
    nodes: &[NodeConfig],
    publisher: &Shared<J, R>,
) -> Result<Worker<R, J>, DeviceFailed>
    requires nodes { length nodes.now ≤ max_nodes }
    requires there { length nodes.now ≡ length J.opening }
    ensures { IfOk result (λ worker. LeadTo nodes.now worker.links.items) }
{
    let links = links_to(rt, alloc, health, nodes)?;
    Ok(Worker {
        view,
        links,
        health: Arc::try_clone(health)?,
        turn: 0,
        publisher: Arc::try_clone(publisher)?,
    })
}
