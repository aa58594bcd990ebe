//! The objects in memory that a run is played over.
use case_objects::links_of;
use case_outcomes::dialer_of;
use case_setting::Setting;
use outside::{MemoryClock, MemoryDialer, MemoryGate, MemorySink};
use proxy_run::{CREW, Crew};
use std::alloc::{AllocError, Global};

/// The objects that a run is given beside the disk.
#[derive(Drop)]
pub struct Objects {
    pub gate: MemoryGate,
    pub crew: Crew<MemoryDialer, MemoryClock>,
    pub out: MemorySink,
}

/// The objects of a run.
pub fn objects_of(alloc: Global, setting: &Setting) -> Result<Objects, AllocError> {
    let gate = gate_of(alloc, setting)?;
    let crew = crew_of(alloc, setting)?;
    let out = MemorySink::new(alloc, setting.fails.sink.clone()?);
    Ok(Objects { gate, crew, out })
}

/// The gate that gives the case's clients.
fn gate_of(alloc: Global, setting: &Setting) -> Result<MemoryGate, AllocError> {
    let fails = &setting.fails;
    let links = links_of(
        alloc,
        setting.clients.as_slice(),
        setting.client_front,
        setting.pieces,
        fails.client.as_slice(),
    )?;
    Ok(MemoryGate::new(alloc, links, fails.gate.clone()?))
}

/// A crew whose first member dials the case's origins and asks the case's clock.
fn crew_of(
    alloc: Global,
    setting: &Setting,
) -> Result<Crew<MemoryDialer, MemoryClock>, AllocError> {
    let mut members = Vec::new(alloc);
    members.push((
        dialer_of(alloc, setting)?,
        MemoryClock::new(setting.clock.clone()?),
    ))?;
    for _ in 1..CREW {
        members.push((
            MemoryDialer::new(alloc, Vec::new(alloc), Vec::new(alloc)),
            MemoryClock::new(Vec::new(alloc)),
        ))?;
    }
    Ok(Crew { members })
}
