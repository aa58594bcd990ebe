//! Prints on standard streams.
//! No case can say it: what a case prints is kept in memory, and goes to no standard stream.
use crate::checked::check;
use call_log::{answered, then};
use outside::Sink;
use real_outside::{RealSink, StandardStreams};

#[test]
fn prints(rt: HostRuntime) {
    let mut out = RealSink::Output {
        system: rt,
        faults: 0,
    };
    let mut error: RealSink<HostRuntime> = RealSink::Error {
        stream: rt.standard_error(),
        faults: 0,
    };
    let told = then(answered(out.write(b"output\n")), error.write(b"error\n"));
    check(&rt, told, "7;6;");
}
