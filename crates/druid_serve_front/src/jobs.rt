//! Requests on their way to a worker, and answers on their way back. A request is handed over as
//! bytes, which the worker reads again: so what a server answers is one function over any reader.
ghost use Rattle.std.specs.Prelude.{◌≡◌, List};
ghost use Rattle.std.specs.List.{FoldsTo};
ghost use Rattle.druid_http_wire.specs.Missing.{IsAnswerable};
ghost use Rattle.druid_serve_front.specs.Answers.{IsAnswer};

use crossbeam_channel::{Receiver, Sender};
use std::alloc::Global;
use std::marker::Model;
use std::sync::Wait;

/// A request that was read whole, and the way for its answer. It is as its bytes are.
#[derive(Drop)]
pub struct Job {
    request: Vec<u8>,
    reply: Sender<JobAnswer>,
}

impl Model for Job {
    ghost use Rattle.std.specs.Prelude.{List, ℕ};
    ghost use Rattle.druid_http_wire.specs.Missing.{IsAnswerable};

    ghost Value = { List ℕ };

    ghost view = { λ a. a.request.items };

    ghost invariant = { λ a. IsAnswerable a.request.items };
}

impl Job {
    // The job of this request, whose answer goes there.
    pub(crate) fn new(request: Vec<u8>, reply: Sender<JobAnswer>) -> Job
        requires { IsAnswerable request.items }
        ensures { result ≡ request.items }
    {
        Job { request, reply }
    }

    /// The bytes of the request: it is whole, or has a fault of X4 to X7.
    pub fn request(&self) -> &[u8]
        ensures value { result.now ≡ self.now }
        ensures whole { IsAnswerable self.now }
    {
        self.request.as_slice()
    }

    /// Hands over the answer, which the front thread writes that waits for it, and does not wait for the client. A job that is let go
    /// instead is not answered, and its connection is closed. (That the answer arrives no clause can say.)
    pub fn answer<R: Wait>(self, rt: &R, status: u16, bytes: Vec<u8>)
        requires { IsAnswer status bytes.items }
    {
        let _ = self.reply.send(rt, JobAnswer::new(status, bytes));
    }
}

// What a worker answers: the text of one response, and the status that it is sent with.
#[derive(Drop)]
pub(crate) struct JobAnswer {
    status: u16,
    bytes: Vec<u8>,
}

impl Model for JobAnswer {
    ghost use Rattle.druid_serve_front.specs.Answers.{AnswerValue, IsAnswer};

    ghost Value = { AnswerValue };

    ghost view = { λ a. record { sent = a.status; bytes = a.bytes.items } };

    ghost invariant = { λ a. IsAnswer a.status a.bytes.items };
}

impl JobAnswer {
    fn new(status: u16, bytes: Vec<u8>) -> JobAnswer
        requires { IsAnswer status bytes.items }
        ensures { result ≡ record { sent = status; bytes = bytes.items } }
    {
        JobAnswer { status, bytes }
    }

    pub(crate) fn status(&self) -> u16
        ensures value { result ≡ self.now.sent }
        ensures answer { IsAnswer self.now.sent self.now.bytes }
    {
        self.status
    }

    pub(crate) fn bytes(&self) -> &[u8]
        ensures { result.now ≡ self.now.bytes }
    {
        self.bytes.as_slice()
    }
}

/// Where workers find the jobs of a front. They share it; once it is gone, front threads hand over nothing more.
#[derive(Drop)]
pub struct Jobs {
    queue: Receiver<Job>,
    // Nothing is sent by it: that it is gone tells that the workers are.
    life: Sender<u8>,
}

impl Jobs {
    pub(crate) fn new(queue: Receiver<Job>, life: Sender<u8>) -> Jobs {
        Jobs { queue, life }
    }

    /// Waits for the next job, in the order in which they were handed over. (What stands in a queue
    /// no clause can say, but what the type of a job says of it.)
    ///
    /// # Errors
    ///
    /// None once the front is gone.
    pub fn take<R: Wait>(&self, rt: &R) -> Option<Job> {
        match self.queue.recv(rt) {
            Ok(job) => Some(job),
            Err(_) => None,
        }
    }
}

/// Answers the jobs of a front, one after another, by a worker that each answer takes and gives back: for ever, or until the front is
/// gone. (How many come no clause can say.)
pub fn answer_jobs<R: Wait, W, F: Fn(W, Job) -> W>(rt: &R, jobs: &Jobs, worker: W, answer: F) -> W
    requires { (before : W) (job : _) → F.pre answer before job }
    ensures { (taken : List _) × FoldsTo (λ before job after. F.post answer before job after) worker taken result }
{
    let mut worker = worker;
    for _ in rt.forever() {
        match jobs.take(rt) {
            Some(job) => worker = answer(worker, job),
            None => return worker,
        }
    }
    unreachable!()
}
