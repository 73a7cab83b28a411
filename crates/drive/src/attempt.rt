//! The walk that was asked for, tried on the map that was asked for.
use crate::request::Request;
use crate::worked;
use files::fault::{FileFault, FileName, ReadFault};
use files::road_file::read_roads;
use inputs::text_file::read_file_if_there;
use loads::charge::Charge;
use maps::closures::{Closures, ShutPlace};
use maps::estate::Estate;
use maps::table::{TableMap, Tables};
use maps::{MOST_JUNCTIONS, Map};
use refusals::refusal::Refusal;
use std::alloc::Global;
use thiserror::Error;
use walks::trial::{NoTrial, Trial, try_charged_walk};

/// Why nothing was driven.
#[derive(Clone, Copy, Debug, Error)]
pub enum NotDriven {
    #[error("refused")]
    Refused(#[from] Refusal),
    #[error("a fault in a file")]
    InFile(#[from] FileFault),
    #[error("out of memory")]
    OutOfMemory,
}

// This conversion and the next are written out, since each case of theirs becomes a case here.
impl From<NoTrial> for NotDriven {
    fn from(why: NoTrial) -> NotDriven {
        match why {
            NoTrial::Refused(refusal) => NotDriven::Refused(refusal),
            NoTrial::OutOfMemory => NotDriven::OutOfMemory,
        }
    }
}

impl From<ReadFault> for NotDriven {
    fn from(why: ReadFault) -> NotDriven {
        match why {
            ReadFault::InFile(fault) => NotDriven::InFile(fault),
            ReadFault::NoMemory => NotDriven::OutOfMemory,
        }
    }
}

fn shut_all<M: Map + Drop>(map: &mut Closures<M>, places: &[ShutPlace]) -> Result<(), Refusal> {
    for shut in places {
        map.shut(shut.junction, shut.place)?;
    }
    Ok(())
}

// Tries the walk that is asked for on this map, with the places shut that are asked for.
fn try_over<M: Map + Drop>(
    heap: Global,
    map: M,
    request: &Request,
) -> Result<Trial<Charge>, NoTrial> {
    let mut closed = Closures::over(map);
    shut_all(&mut closed, &request.shut)?;
    try_charged_walk(heap, closed, request.walk())
}

// Tries the walk that is asked for on the map of these tables.
fn try_tables(
    heap: Global,
    tables: Tables<'_>,
    request: &Request,
) -> Result<Trial<Charge>, NotDriven> {
    let map = TableMap::new(tables)?;
    Ok(try_over(heap, map, request)?)
}

/// Tries the walk: on the estate that is named, or else on the map of roads.txt in the working
/// directory, or on the worked map where there is no such file.
pub fn attempt(rt: &HostRuntime, request: &Request) -> Result<Trial<Charge>, NotDriven> {
    let heap = rt.alloc();
    if let Some(numbers) = request.estate {
        return Ok(try_over(heap, Estate::new(numbers)?, request)?);
    }
    let Some(text) = read_file_if_there(rt, FileName::Roads)? else {
        return try_tables(heap, worked::tables(), request);
    };
    let roads = read_roads(heap, &text, MOST_JUNCTIONS)?;
    try_tables(heap, roads.lent(), request)
}
