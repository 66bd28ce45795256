//! The threads of a node that answer.
ghost use Rattle.std.specs.Prelude.{◌≡◌, ◌≢◌, ℕ, List, [], Some, IfOk, IfSome};
ghost use Rattle.std.specs.declared.cmp.Ordering.TheVariants.{Greater};
ghost use Rattle.druid_segment_descriptor.specs.Mark.{Point, mark_cmp};
ghost use Rattle.druid_node.specs.Seen.{IsServedAsSeen};
ghost use Rattle.druid_serve_front.specs.Answers.{IsAnswer};

use crate::latest_mark::{Begun, Latest};
use druid_node::{DataNode, Incarnation, NodeFault};
use druid_segment_descriptor::Mark;
use druid_serve_base::{DeviceFailed, Host, Source, Telemetry, answer_each, limit};
use druid_serve_front::{Job, Jobs, answer_jobs, close_answered};
use druid_telemetry_metrics::CountedWriter;
use std::alloc::Global;
use std::io::{BufRead, BufReader, BufWriter, Write};
use std::net::{TcpListener, TcpStream};
use std::sync::{Arc, Wait};
use std::thread::{self, Threads};

// Answers a request from a state that is not older than what was seen, nor than what the loading thread has noted, and so never
// from one before the loads of the start.
fn serve_since<R: Wait + Threads, I: Incarnation, J: Begun, B: BufRead, W: Write>(
    rt: &R,
    node: &DataNode<I>,
    latest: &Latest<J>,
    reader: &mut B,
    writer: &mut W,
    seen: &mut Mark,
) -> Result<u16, NodeFault>
    ensures ok { IfOk result (λ sent. (from : Point) × (mark_cmp seen.old from ≢ Greater) × (mark_cmp J.mark from ≢ Greater)
        × IsServedAsSeen I.number from seen.new (B.remaining reader.old) (B.remaining reader.new) (W.contents writer.old) (W.contents writer.new) sent) }
    ensures risen { mark_cmp seen.old seen.new ≢ Greater }
{
    let noted = latest.mark(rt);
    if *seen < noted {
        *seen = noted;
    }
    node.serve_one(rt, reader, writer, seen)
}

// Answers a request and sends all of the answer, and gives the status that was written, if it was.
fn send<R: Wait + Threads, I: Incarnation, J: Begun, B: BufRead, W: Write>(
    rt: &R,
    node: &DataNode<I>,
    latest: &Latest<J>,
    reader: &mut B,
    writer: &mut W,
    seen: &mut Mark,
) -> Option<u16>
    ensures { mark_cmp seen.old seen.new ≢ Greater }
{
    let status = serve_since(rt, node, latest, reader, writer, seen).ok()?;
    writer.flush().ok()?;
    Some(status)
}

// Answers one connection, and gives the status that was written, if an answer was.
fn answer<R: Host, I: Incarnation, J: Begun>(
    rt: &R,
    alloc: Global,
    node: &DataNode<I>,
    latest: &Latest<J>,
    telemetry: &Telemetry,
    stream: &TcpStream,
    seen: &mut Mark,
) -> Option<u16>
    ensures { mark_cmp seen.old seen.new ≢ Greater }
{
    if !limit(stream) {
        return None;
    }
    let Ok(mut reader) = BufReader::new(alloc, stream) else {
        return None;
    };
    let Ok(mut writer) = BufWriter::new(alloc, CountedWriter::new(stream)) else {
        return None;
    };
    let Some(taken) = telemetry.take(rt, &mut reader) else {
        return None;
    };
    let status = send(rt, node, latest, &mut reader, &mut writer, seen);
    telemetry.end(rt, alloc, &taken, status, writer.get_ref().written());
    status
}

// Answers connections, and gives the mark of what was seen of the node by then.
fn answer_connections<R: Host, I: Incarnation, J: Begun>(
    rt: &R,
    alloc: Global,
    node: &DataNode<I>,
    latest: &Latest<J>,
    telemetry: &Telemetry,
    listener: &TcpListener,
) -> Mark
    ensures { mark_cmp J.mark result ≢ Greater }
{
    answer_each(
        rt,
        listener,
        latest.mark(rt),
        |seen: Mark, stream: TcpStream|
            ensures { mark_cmp seen result ≢ Greater }
        {
            let mut seen = seen;
            if let Some(status) = answer(rt, alloc, node, latest, telemetry, &stream, &mut seen) {
                close_answered(rt, status, stream);
            }
            seen
        },
    )
}

// Answers the bytes of a request that a front thread read: the status of the answer, and its text. None where memory runs out before
// the answer stands.
#[tactic(auto, using(druid_serve_front::proofs::AnswerLemmas::served_is_answer))]
fn answer_bytes<R: Host, I: Incarnation, J: Begun>(
    rt: &R,
    alloc: Global,
    node: &DataNode<I>,
    latest: &Latest<J>,
    telemetry: &Telemetry,
    request: &[u8],
    seen: &mut Mark,
) -> Option<(u16, Vec<u8>)>
    ensures served { IfSome result (λ sent. (from : Point) × (rest : List ℕ) × (mark_cmp seen.old from ≢ Greater) × (mark_cmp J.mark from ≢ Greater)
        × IsServedAsSeen I.number from seen.new (Some request.now) (Some rest) (Some []) (Some sent.1.items) sent.0) }
    ensures answer { IfSome result (λ sent. IsAnswer sent.0 sent.1.items) }
    ensures risen { mark_cmp seen.old seen.new ≢ Greater }
{
    let taken = telemetry.take_whole(rt, request);
    let mut reader = request;
    let mut bytes = Vec::new(alloc);
    match serve_since(rt, node, latest, &mut reader, &mut bytes, seen) {
        Ok(status) => {
            telemetry.end(rt, alloc, &taken, Some(status), bytes.len() as u64);
            Some((status, bytes))
        }
        Err(_) => {
            telemetry.end(rt, alloc, &taken, None, 0);
            None
        }
    }
}

// Answers the jobs of a front, and gives the mark of what was seen of the node by then.
fn answer_front<R: Host, I: Incarnation, J: Begun>(
    rt: &R,
    alloc: Global,
    node: &DataNode<I>,
    latest: &Latest<J>,
    telemetry: &Telemetry,
    jobs: &Jobs,
) -> Mark
    ensures { mark_cmp J.mark result ≢ Greater }
{
    answer_jobs(
        rt,
        jobs,
        latest.mark(rt),
        |seen: Mark, job: Job|
            ensures { mark_cmp seen result ≢ Greater }
        {
            let mut seen = seen;
            let request = job.request();
            let answer = answer_bytes(rt, alloc, node, latest, telemetry, request, &mut seen);
            if let Some((status, bytes)) = answer {
                job.answer(rt, status, bytes);
            }
            seen
        },
    )
}

// Answers what comes, and gives the mark of what was seen of the node by then.
fn work<R: Host, I: Incarnation, J: Begun>(
    rt: &R,
    alloc: Global,
    node: &DataNode<I>,
    latest: &Latest<J>,
    telemetry: &Telemetry,
    source: &Source,
) -> Mark
    ensures { mark_cmp J.mark result ≢ Greater }
{
    match source {
        Source::Connections(listener) => answer_connections(
            rt, alloc, node, latest, telemetry, listener,
        ),
        Source::Front(jobs) => answer_front(rt, alloc, node, latest, telemetry, jobs),
    }
}

// Starts a thread that answers what comes.
pub(crate) fn start_worker<
    R: Host + Copy + Send + Sync + 'static,
    I: Incarnation + Send + Sync + 'static,
    J: Begun + Send + Sync + 'static,
>(
    rt: &R,
    alloc: Global,
    node: &Arc<DataNode<I>, Global>,
    latest: &Arc<Latest<J>, Global>,
    telemetry: &Telemetry,
    source: &Source,
) -> Result<(), DeviceFailed> {
    let rt = *rt;
    let node = Arc::try_clone(node)?;
    let latest = Arc::try_clone(latest)?;
    let telemetry = telemetry.share()?;
    let source = source.share()?;
    let job = move || work(&rt, alloc, &node, &latest, &telemetry, &source);
    match thread::spawn(&rt, job) {
        Ok(worker) => {
            drop(worker);
            Ok(())
        }
        Err(_) => Err(DeviceFailed),
    }
}
