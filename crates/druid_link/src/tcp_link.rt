//! Links over sockets. An address is judged when the server is called.
ghost use Rattle.std.specs.Prelude.{◌≡◌, ◌↔◌, ◌≤◌, ◌<◌, ◌⊎◌, length, take, string_bytes, min, max, option_map, IfOk, IfErr, IfSome, IsErrOf, OnOk};
ghost use Rattle.std.specs.Duration.{as_nanos};
ghost use Rattle.std.specs.Time.{instant_nanos};
ghost use Rattle.druid_link.specs.Times.{time_from};
ghost use Rattle.std.specs.Io.KnownBytes.{Appends, Consumes, IsAtEnd};
ghost use Rattle.std.specs.IoError.{error_kind};
ghost use Rattle.druid_link.specs.Limits.{max_exchange};
ghost use Rattle.druid_link.specs.Links.{IsLinkFault, faults_at};
ghost use Rattle.druid_link.specs.TcpLinks.{IsExchanged, fresh_tcp_link, limited};

use crate::log::{ExchangeLog, ExchangeNote};
use crate::timer::{Timer, receive_some, send_all};
use crate::{Link, MAX_EXCHANGE};
use druid_http_message::WireFault;
use std::alloc::Global;
use std::io::{Read, Write};
use std::marker::Model;
use std::net::{Net, OpenStream, SocketAddr, TcpStream};
use std::time::{Clock, Duration, Instant};

/// The longest that an exchange may take, in seconds, connecting included; then it fails.
pub const EXCHANGE_SECONDS: u64 = 30;

// The least time that a hastened exchange has, in milliseconds.
const LEAST_MILLIS: u64 = 1;

// How many bytes are read at once.
const PART: usize = 16_384;

/// A link to the server at an address, as `127.0.0.1:8082`. Each exchange makes a connection of its own, which is closed
/// after it. `Connect` where the text is no address of a socket, where no connection is made, or where the clock cannot be
/// read before; `Write` where the socket fails before the request is sent whole; `Read` where the answer cannot be read to
/// its end. All of them together may take no longer than the limit, and where the link was hastened no longer than what is
/// left of that time: after the connecting it is `Read` where the time is over, or cannot be read, whether the request is
/// being sent or the answer read. Of what the server gives nothing is claimed but how much it is.
///
/// It keeps, for proofs alone, the exchanges that were made over it: of each the request, and what came. So what a caller
/// does over it is known, and that those exchanges were honest can be a premise.
#[derive(Drop)]
pub struct TcpLink<N: Net + Clock> {
    net: N,
    address: String,
    limit: Duration,
    // When the time is over that `hasten` set, by the clock of `net`.
    deadline: Option<Instant>,
    // How many exchanges failed.
    failed: u64,
    log: ExchangeLog,
}

impl<N: Net + Clock> Model for TcpLink<N> {
    ghost use Rattle.std.specs.Prelude.{string_bytes};
    ghost use Rattle.druid_link.specs.TcpLinks.{TcpLinkValue};

    ghost Value = { TcpLinkValue };

    ghost view = { λ a. record { address = string_bytes a.address; limit = a.limit; failed = a.failed; made = a.log.made } };
}

impl<N: Net + Clock> TcpLink<N> {
    /// A link to the server at this address, whose exchanges may take `EXCHANGE_SECONDS`, and over which none was made.
    pub fn new(net: N, address: String) -> TcpLink<N>
        ensures { result ≡ fresh_tcp_link (string_bytes address) }
    {
        TcpLink {
            net,
            address,
            limit: Duration::from_secs(EXCHANGE_SECONDS),
            deadline: None,
            failed: 0,
            log: ExchangeLog::new(),
        }
    }

    /// The same link, whose exchanges may take so long.
    pub fn with_limit(self, limit: Duration) -> TcpLink<N>
        ensures { result ≡ limited self limit }
    {
        let mut link = self;
        link.limit = limit;
        link
    }
}

impl<N: Net + Clock> Link for TcpLink<N> {
    ghost use Rattle.druid_link.specs.TcpLinks.{ExchangesOverTcp};

    ghost exchanges = { ExchangesOverTcp };

    ghost faults = { λ link. link.failed };

    fn exchange(&mut self, alloc: Global, request: &[u8]) -> Result<Vec<u8>, WireFault> {
        let time = Time {
            limit: self.limit,
            deadline: self.deadline,
        };
        let came = ask(alloc, &self.net, self.address.as_str(), time, request);
        self.log = self.log.then(&ExchangeNote {
            request,
            came: &came,
        });
        match came {
            Ok(bytes) => Ok(bytes),
            Err(fault) => {
                self.failed = faults_at(fault, self.failed);
                Err(fault)
            }
        }
    }

    fn hasten(&mut self, millis: Option<u64>) {
        self.deadline = deadline_after(&self.net, millis);
    }

    fn faults(&self) -> u64 {
        self.failed
    }
}

// When so many milliseconds from now are over. `None` too where the clock cannot be read, or ends before.
fn deadline_after<C: Clock>(clock: &C, millis: Option<u64>) -> Option<Instant> {
    let millis = millis?;
    let Ok(now) = Instant::now(clock) else {
        return None;
    };
    now.checked_add(Duration::from_millis(millis))
}

// How often the device has failed, after a fault.
fn faults_at(fault: WireFault, failed: u64) -> u64
    ensures { result ≡ faults_at fault failed }
{
    match fault {
        WireFault::Read | WireFault::Write | WireFault::Connect => failed.saturating_add(1),
        WireFault::Cut
        | WireFault::BadHead
        | WireFault::HeadTooLong
        | WireFault::NoLength
        | WireFault::BodyTooLong
        | WireFault::Memory => failed,
    }
}

// The time that exchanges over a link have.
#[derive(Clone, Copy)]
struct Time {
    limit: Duration,
    deadline: Option<Instant>,
}

impl Time {
    // How long an exchange may take that starts then: as long as is left until the deadline, but a millisecond at least, and never
    // longer than the limit.
    fn from(&self, start: Instant) -> Duration
        ensures { as_nanos result ≡ time_from (as_nanos self.now.limit) (option_map instant_nanos self.now.deadline) (instant_nanos start) }
    {
        let Some(deadline) = self.deadline else {
            return self.limit;
        };
        let left = deadline.duration_since(start);
        shorter(
            longer(left, Duration::from_millis(LEAST_MILLIS)),
            self.limit,
        )
    }
}

fn shorter(a: Duration, b: Duration) -> Duration
    ensures { as_nanos result ≡ min (as_nanos a) (as_nanos b) }
{
    match a.checked_sub(b) {
        Some(_) => b,
        None => a,
    }
}

fn longer(a: Duration, b: Duration) -> Duration
    ensures { as_nanos result ≡ max (as_nanos a) (as_nanos b) }
{
    match a.checked_sub(b) {
        Some(_) => a,
        None => b,
    }
}

// One exchange.
fn ask<N: Net + Clock>(
    alloc: Global,
    net: &N,
    address: &str,
    time: Time,
    request: &[u8],
) -> Result<Vec<u8>, WireFault>
    ensures bound { IfOk result (λ bytes. length bytes.items ≤ max_exchange) }
    ensures fault { IfErr result IsLinkFault }
{
    let Ok(start) = Instant::now(net) else {
        return Err(WireFault::Connect);
    };
    let timer = Timer::new(start, time.from(start));
    let Some(mut stream) = connect(net, &timer, address) else {
        return Err(WireFault::Connect);
    };
    exchange_over(alloc, net, &timer, &mut stream, request)
}

// A connection to the server at an address, made within the time.
fn connect<N: Net + Clock>(net: &N, timer: &Timer, address: &str) -> Option<N::Stream> {
    let Ok(address) = address.parse::<SocketAddr>() else {
        return None;
    };
    let left = timer.time_left(net)?;
    TcpStream::connect_timeout(net, &address, left).ok()
}

// One exchange over a stream, within the time: the request is sent whole, and then the answer is all that the stream has left.
fn exchange_over<C: Clock, S: Read + Write + OpenStream>(
    alloc: Global,
    clock: &C,
    timer: &Timer,
    stream: &mut S,
    request: &[u8],
) -> Result<Vec<u8>, WireFault>
    ensures bound { IfOk result (λ bytes. length bytes.items ≤ max_exchange) }
    ensures whole { IfOk result
        (λ bytes. IsExchanged S.contents S.remaining stream.old request.now bytes.items) }
    ensures fault { IfErr result IsLinkFault }
{
    match send_all(clock, timer, stream, request) {
        Ok(()) => {}
        Err(fault) => return Err(fault),
    }
    receive_all(alloc, clock, timer, stream)
}

// Reads all bytes until the other side closes, within the time. Each turn reads one byte at least.
fn receive_all<C: Clock, S: Read + OpenStream>(
    alloc: Global,
    clock: &C,
    timer: &Timer,
    stream: &mut S,
) -> Result<Vec<u8>, WireFault>
    ensures bound { IfOk result (λ bytes. length bytes.items ≤ max_exchange) }
    ensures whole { IfOk result (λ bytes. IfSome (S.remaining stream.old) (λ left. bytes.items ≡ left)) }
    ensures too_long { IsErrOf result WireFault.BodyTooLong
        → IfSome (S.remaining stream.old) (λ left. MAX_EXCHANGE < length left) }
    ensures err { IfErr result
        (λ fault. (fault ≡ WireFault.Read) ⊎ (fault ≡ WireFault.BodyTooLong) ⊎ (fault ≡ WireFault.Memory)) }
{
    let mut bytes = Vec::new(alloc);
    let mut part = [0u8; PART];
    for _turn in 0..=MAX_EXCHANGE {
        let count = match receive_some(clock, timer, stream, &mut part) {
            Ok(count) => count,
            Err(fault) => return Err(fault),
        };
        if count == 0 {
            return Ok(bytes);
        }
        if MAX_EXCHANGE - bytes.len() < count {
            return Err(WireFault::BodyTooLong);
        }
        bytes.extend_from_slice(&part[..count])?;
    }
    unreachable!()
}
