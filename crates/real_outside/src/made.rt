//! The real objects that the program hands to the call that serves.
ghost use Rattle.std.specs.Prelude.{◌≡◌, All, IfOk, vec_len};
ghost use Rattle.real_outside.specs.Dialers.{dialer_faults, is_echo};
ghost use Rattle.real_outside.specs.Disks.{lock_of};
ghost use Rattle.real_outside.specs.Ends.{is_streams};
ghost use Rattle.real_outside.specs.Gates.{gate_faults, is_once};
ghost use Rattle.real_outside.specs.Sinks.{sink_faults, is_error};

use crate::clock::RealClock;
use crate::dialer::RealDialer;
use crate::ends::Ends;
use crate::file_system::FileSystem;
use crate::gate::RealGate;
use crate::real_disk::RealDisk;
use crate::sink::RealSink;
use crate::standard_streams::StandardStreams;
use capture::{Memory, Site};
use folder_model::Lock;
use std::io::Print;
use std::net::SocketAddr;
use std::rt::{Clock, Env};
use system_network::Network;
use tcp_links::{LIMITS, Places, TcpDialer, TcpGate, where_to_listen};

/// The objects of one run.
#[derive(Drop)]
pub struct Made<R: FileSystem + Network + StandardStreams> {
    /// The archive's disk.
    pub disk: RealDisk<R::Folders>,
    /// Where clients come in.
    pub gate: RealGate<R>,
    /// For each member of the crew, a way to origins and a clock.
    pub members: Vec<(RealDialer<R>, RealClock<R>)>,
    /// Where the program prints.
    pub out: RealSink<R>,
}

/// Makes the objects of a run with these ends: one client at the standard streams, the trial origin and prints to
/// standard error; or TCP both ways and prints to standard output. The archive is held so. The crew has so many members.
///
/// Where clients come in by TCP the gate listens from now on, at the site's host and port, or where the environment's
/// `MEMPROXY_LISTEN=HOST:PORT` says. Whether it couldn't is what its `was_refused` answers.
pub fn make<R>(rt: &R, ends: Ends, lock: Lock, members: usize) -> Result<Made<R>, Memory>
where
    R: Clone + Drop + AllocGlobal + FileSystem + Print + Network + Clock + Env + StandardStreams,
    ensures disk { IfOk result (λ made. lock_of made.disk ≡ lock) }
    ensures crew { IfOk result (λ made. vec_len made.members ≡ members) }
    ensures gate { IfOk result (λ made. is_once made.gate ≡ is_streams ends) }
    ensures dialers { IfOk result (λ made. All (λ member. is_echo member.0 ≡ is_streams ends) made.members.items) }
    ensures out { IfOk result (λ made. is_error made.out ≡ is_streams ends) }
{
    let streams = ends.is_streams();
    let places = Places::new(rt.alloc())?;
    let gate = make_gate(rt, ends, &places)?;
    let own = gate.own_address();
    let around = Surroundings { places, own };
    let members = make_members(rt, streams, &around, members)?;
    let out = make_sink(rt, streams)?;
    Ok(Made {
        disk: RealDisk::new(rt.folders(), rt.alloc(), lock),
        gate,
        members,
        out,
    })
}

/// The gate of a run with these ends. A place of each of its connections is counted.
fn make_gate<R>(rt: &R, ends: Ends, places: &Places) -> Result<RealGate<R>, Memory>
where
    R: Clone + Drop + AllocGlobal + Env + StandardStreams + Network,
    ensures kind { IfOk result (λ gate. is_once gate ≡ is_streams ends) }
    ensures no_fault { IfOk result (λ gate. gate_faults gate ≡ 0) }
{
    match ends {
        Ends::Streams => Ok(RealGate::Once {
            system: Some(rt.clone()?),
        }),
        Ends::Network(site) => Ok(RealGate::Tcp {
            gate: make_tcp_gate(rt, site, places)?,
            faults: 0,
        }),
    }
}

/// A gate that listens for a site, where there is one.
fn make_tcp_gate<R>(rt: &R, site: Option<Site>, places: &Places) -> Result<TcpGate<R>, Memory>
where
    R: Clone + Drop + AllocGlobal + Env + Network,
{
    let places = places.share()?;
    let Some(site) = site else {
        return Ok(TcpGate::new(rt.clone()?, None, places, LIMITS));
    };
    let address = where_to_listen(rt, &site)?;
    let mut gate = TcpGate::new(rt.clone()?, address, places, LIMITS);
    gate.bind();
    Ok(gate)
}

/// What a dialer knows of the program.
#[derive(Drop)]
struct Surroundings {
    /// The places of connections.
    places: Places,
    /// Where the program listens itself.
    own: Option<SocketAddr>,
}

/// So many dialers, each with a clock.
fn make_members<R>(
    rt: &R,
    streams: bool,
    around: &Surroundings,
    many: usize,
) -> Result<Vec<(RealDialer<R>, RealClock<R>)>, Memory>
where
    R: Clone + Drop + AllocGlobal + Clock,
    ensures many { IfOk result (λ members. vec_len members ≡ many) }
    ensures kind { IfOk result (λ members. All (λ member. is_echo member.0 ≡ streams) members.items) }
{
    let mut members = Vec::new(rt.alloc());
    for _ in 0..many {
        members.push((
            make_dialer(rt, streams, around)?,
            RealClock::new(rt.clone()?),
        ))?;
    }
    Ok(members)
}

/// A dialer: to the trial origin beside standard streams, else by TCP.
fn make_dialer<R>(rt: &R, streams: bool, around: &Surroundings) -> Result<RealDialer<R>, Memory>
where
    R: Clone + Drop + AllocGlobal,
    ensures kind { IfOk result (λ dialer. is_echo dialer ≡ streams) }
    ensures no_fault { IfOk result (λ dialer. dialer_faults dialer ≡ 0) }
{
    if streams {
        return Ok(RealDialer::Echo {
            alloc: rt.alloc(),
            faults: 0,
        });
    }
    let places = around.places.share()?;
    Ok(RealDialer::Tcp {
        dialer: TcpDialer::new(rt.clone()?, places, LIMITS, around.own),
        faults: 0,
    })
}

/// Where a run prints: on standard error beside standard streams, else on standard output.
fn make_sink<R>(rt: &R, streams: bool) -> Result<RealSink<R>, Memory>
where
    R: Clone + Drop + StandardStreams,
    ensures kind { IfOk result (λ out. is_error out ≡ streams) }
    ensures no_fault { IfOk result (λ out. sink_faults out ≡ 0) }
{
    if streams {
        return Ok(RealSink::Error {
            stream: rt.standard_error(),
            faults: 0,
        });
    }
    Ok(RealSink::Output {
        system: rt.clone()?,
        faults: 0,
    })
}
