//! Queries, posted to the brokers, and their answers, printed.
ghost use Rattle.std.specs.Prelude.{◌≡◌, ℕ, List, OnOk};
ghost use Rattle.std.specs.Io.KnownBytes.{Appends};
ghost use Rattle.druid_link.specs.Links.{Came, came_of};
ghost use Rattle.druid_serve_base.specs.Printed.{number_of, answer_lines, fault_lines, IsPrinted};

use druid_http_message::{Request, WireFault};
use druid_http_wire::{request_bytes, response_of};
use druid_link::{Link, TcpLink};
use http::{Method, StatusCode};
use std::alloc::Global;
use std::io;
use std::io::Write;
use std::net::Net;
use std::time::Clock;

// Where queries are posted.
const QUERY_PATH: &str = "/druid/v2";

// What is printed of a fault: its number.
fn number_of(fault: WireFault) -> &'static str
    ensures { result.now ≡ number_of fault }
{
    match fault {
        WireFault::Cut => "X1",
        WireFault::Read => "X2",
        WireFault::Write => "X3",
        WireFault::BadHead => "X4",
        WireFault::HeadTooLong => "X5",
        WireFault::NoLength => "X6",
        WireFault::BodyTooLong => "X7",
        WireFault::Connect => "X8",
        WireFault::Memory => "X9",
    }
}

// All that a server answers to a query.
fn post_query<L: Link>(alloc: Global, query: &str, link: &mut L) -> Result<Vec<u8>, WireFault> {
    let target = String::from_str(alloc, QUERY_PATH)?;
    let body = query.as_bytes().to_vec(alloc)?;
    let request = request_bytes(alloc, &Request::new(Method::POST, target, body))?;
    link.exchange(alloc, &request)
}

// Prints the status and the body of a response.
fn print_response<W: Write>(status: StatusCode, body: &[u8], out: &mut W) -> io::Result<()>
    ensures { OnOk result (Appends (W.contents out.old) (W.contents out.new) (answer_lines status body.now)) }
{
    writeln!(out, "{}", status.as_u16())?;
    out.write_all(body)?;
    out.write_all(b"\n")
}

// Prints the number of a fault, and an empty body.
fn print_fault<W: Write>(fault: WireFault, out: &mut W) -> io::Result<()>
    ensures { OnOk result (Appends (W.contents out.old) (W.contents out.new) (fault_lines fault)) }
{
    out.write_all(number_of(fault).as_bytes())?;
    out.write_all(b"\n\n")
}

// Prints what came over a link.
fn print<W: Write>(answer: &Result<Vec<u8>, WireFault>, out: &mut W) -> io::Result<()>
    ensures { OnOk result ((text : List ℕ) × IsPrinted (came_of answer.now) text
        × Appends (W.contents out.old) (W.contents out.new) text) }
{
    match answer {
        Ok(bytes) => match response_of(bytes) {
            Ok((status, body)) => print_response(status, body, out),
            Err(fault) => print_fault(fault, out),
        },
        Err(fault) => print_fault(*fault, out),
    }
}

/// Posts a query to the broker at an address, and prints the answer: its status and its body, or
/// the number of its fault and an empty line.
///
/// # Errors
///
/// The writer's error, or out of memory for the address. Some of the answer may be written (no
/// clause).
pub fn ask<R: Net + Clock + Copy, W: Write>(
    rt: &R,
    alloc: Global,
    query: &str,
    address: &str,
    out: &mut W,
) -> io::Result<()>
    ensures { OnOk result ((came : Came) × (text : List ℕ) × IsPrinted came text
        × Appends (W.contents out.old) (W.contents out.new) text) }
{
    let mut link = TcpLink::new(*rt, String::from_str(alloc, address)?);
    let answer = post_query(alloc, query, &mut link);
    print(&answer, out)
}
