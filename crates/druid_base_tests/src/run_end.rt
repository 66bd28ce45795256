//! What ended a run before the end of its input.
use crate::tables::{assert_rows, owned};
use druid_replay::{ReplayStop, replay, replay_explained};
use std::alloc::Global;
use std::io;
use std::io::{BufReader, ErrorKind, Read, Write};
use std::process::Abort;

// How the run of an input ends, which has the fault that `replay` answers.
fn stop_of(rt: &impl Abort, alloc: Global, input: &[u8]) -> ReplayStop {
    let (mut written, mut left) = (Vec::new(alloc), input);
    let stop = replay_explained(alloc, &mut left, &mut written).expect_err(rt, "no fault");
    let (mut written, mut left) = (Vec::new(alloc), input);
    assert!(rt; replay(alloc, &mut left, &mut written) == Err(stop.fault));
    stop
}

// What ended the run of an input.
fn reason_of(rt: &impl Abort, alloc: Global, input: &str) -> String {
    let stop = stop_of(rt, alloc, input.as_bytes());
    format!(in alloc; "{}", stop.reason).expect(rt, "memory")
}

#[test]
fn first_lines(rt: HostRuntime) {
    let rows = "x = the line: not JSON in UTF-8
0 = do: not \"brokers\", which comes first
{\"broker\":0,\"do\":\"marks\"} = do: not \"brokers\", which comes first
{\"do\":\"brokers\",\"nodes\":[\"n\"]} = count: not a number
{\"count\":-1,\"do\":\"brokers\",\"nodes\":[\"n\"]} = count: not a number
{\"count\":1,\"do\":\"brokers\"} = nodes: not a list of texts
{\"count\":1,\"do\":\"brokers\",\"nodes\":[\"n\",1]} = nodes: not a list of texts
{\"count\":65,\"do\":\"brokers\",\"nodes\":[\"n\"]} = count, nodes: not 1 to 64 brokers over 1 to 64 nodes
{\"count\":1,\"do\":\"brokers\",\"nodes\":[]} = count, nodes: not 1 to 64 brokers over 1 to 64 nodes";
    assert_rows(&rt, rt.alloc(), rows, reason_of);
}

// What is said of a line after one broker over one node.
fn reason_after(rt: &impl Abort, alloc: Global, line: &str) -> String {
    let first = "{\"count\":1,\"do\":\"brokers\",\"nodes\":[\"n\"]}";
    let input = format!(in alloc; "{first}\n{line}\n").expect(rt, "memory");
    reason_of(rt, alloc, input.as_str())
}

#[test]
fn later_lines(rt: HostRuntime) {
    let rows = "{ = the line: not JSON in UTF-8
{} = do: not \"reply\", \"lookup\", \"marks\", \"join\" or \"equal\"
{\"count\":1,\"do\":\"brokers\",\"nodes\":[\"n\"]} = do: not \"reply\", \"lookup\", \"marks\", \"join\" or \"equal\"
{\"do\":\"reply\"} = broker: not a number
{\"broker\":0,\"do\":\"reply\"} = node: not a number from 0 to 65535
{\"broker\":0,\"do\":\"reply\",\"node\":65536} = node: not a number from 0 to 65535
{\"broker\":1,\"do\":\"reply\",\"node\":0} = reply: not there
{\"broker\":1,\"do\":\"reply\",\"node\":0,\"reply\":0} = broker: not a broker that is there
{\"broker\":\"0\",\"do\":\"lookup\"} = broker: not a number
{\"broker\":0,\"do\":\"lookup\"} = interval: not a text
{\"broker\":0,\"do\":\"lookup\",\"interval\":\"x\"} = source: not a text
{\"broker\":1,\"do\":\"lookup\",\"interval\":\"x\",\"source\":\"\"} = broker: not a broker that is there
{\"do\":\"marks\"} = broker: not a number
{\"broker\":1,\"do\":\"marks\"} = broker: not a broker that is there
{\"do\":\"join\",\"into\":0} = from: not a number
{\"do\":\"join\",\"from\":0} = into: not a number
{\"do\":\"join\",\"from\":1,\"into\":1} = from: not a broker that is there
{\"do\":\"join\",\"from\":0,\"into\":1} = into: not a broker that is there
{\"do\":\"equal\",\"right\":0} = left: not a number
{\"do\":\"equal\",\"left\":0} = right: not a number
{\"do\":\"equal\",\"left\":1,\"right\":1} = left: not a broker that is there
{\"do\":\"equal\",\"left\":0,\"right\":1} = right: not a broker that is there";
    assert_rows(&rt, rt.alloc(), rows, reason_after);
}

// A line of one byte more than a line may have.
#[test]
fn long_line(rt: HostRuntime) {
    let mut line = Vec::new(rt.alloc());
    line.resize(16_777_217, b' ').expect(&rt, "memory");
    let stop = stop_of(&rt, rt.alloc(), &line);
    let text = format!(in rt.alloc(); "{}: {}", stop.fault, stop.reason).expect(&rt, "memory");
    let wanted = "line 1: bad command: the line: more than 16777216 bytes";
    assert!(rt; text.as_str() == wanted, "{text}");
}

// A reader that fails in this way, a writer that takes nothing, and one that takes all and does not flush.
#[derive(Drop)]
struct Failing {
    kind: ErrorKind,
    takes: bool,
}

impl Read for Failing {
    fn read(&mut self, _buf: &mut [u8]) -> io::Result<usize> {
        Err(self.kind.into())
    }
}

impl Write for Failing {
    fn write(&mut self, buf: &[u8]) -> io::Result<usize> {
        if self.takes {
            Ok(buf.len())
        } else {
            Err(self.kind.into())
        }
    }

    fn flush(&mut self) -> io::Result<()> {
        Err(self.kind.into())
    }
}

// Asserts how a run ends.
fn assert_stop(rt: &impl Abort, alloc: Global, ended: Result<(), ReplayStop>, wanted: &str) {
    let stop = ended.expect_err(rt, "no fault");
    let text = format!(in alloc; "{}: {}", stop.fault, stop.reason).expect(rt, "memory");
    assert!(rt; text.as_str() == wanted, "{text}");
}

#[test]
fn failing_devices(rt: HostRuntime) {
    let (alloc, kind) = (rt.alloc(), ErrorKind::Other);
    let script = b"{\"count\":1,\"do\":\"brokers\",\"nodes\":[\"n\"]}\n".as_slice();
    let rows = [
        (false, "line 1: device: standard output: a write failed"),
        (true, "line 2: device: standard output: a write failed"),
    ];
    for (takes, wanted) in rows {
        let (mut input, mut out) = (script, Failing { kind, takes });
        let ended = replay_explained(alloc, &mut input, &mut out);
        assert_stop(&rt, alloc, ended, wanted);
    }
    let input = Failing { kind, takes: false };
    let mut input = BufReader::with_capacity(alloc, 16, input).expect(&rt, "memory");
    let ended = replay_explained(alloc, &mut input, &mut Vec::new(alloc));
    let wanted = "line 1: device: standard input: a read failed";
    assert_stop(&rt, alloc, ended, wanted);
}
