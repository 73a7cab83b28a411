//! `drive [--estate W H T D G] [--shut J K].. START CHARGE CAPACITY WATTS PLACE..`: tries one walk on an
//! estate, or on the map of roads.txt, or on the worked map where there is no such file, and tells where
//! the van is and what it carries after each road.
#![tactic(auto)]

mod attempt;
mod request;
mod worked;

use anyhow::anyhow;
use attempt::{NotDriven, attempt as try_request};
use inputs::text_file::print_fault;
use loads::charge::Charge;
use request::{BadRequest, Request, read_request};
use std::{env, io};
use walks::trial::{Stranding, Trial};

fn print_legs(rt: &HostRuntime, trial: &Trial<Charge>) -> io::Result<()> {
    println!(rt; "road junction place seconds charge")?;
    for (road, leg) in (1..=trial.legs.len()).zip(&trial.legs) {
        println!(rt;
            "{road} {} {} {} {}",
            leg.junction, leg.place, leg.time, leg.load.level
        )?;
    }
    Ok(())
}

fn print_ending(rt: &HostRuntime, departed_with: u32, trial: &Trial<Charge>) -> io::Result<()> {
    let road = trial.legs.len().wrapping_add(1);
    let departure = Charge {
        level: departed_with,
    };
    let charge = trial.legs.last().map_or(departure, |leg| leg.load);
    match trial.ending {
        Ok(()) => println!(rt; "arrived"),
        Err(Stranding::EmptyPlace) => println!(rt; "stranded at road {road}: the place is empty"),
        Err(Stranding::CannotDrive(next)) => println!(rt;
            "stranded at road {road}: the charge is short by {} watt-hours",
            charge.short_of(next.draw)
        ),
        Err(Stranding::PastDeadline(_)) => println!(rt;
            "stranded at road {road}: the walk would take over 999999 seconds"
        ),
    }
}

fn complain(rt: &HostRuntime, bad: BadRequest) -> io::Result<()> {
    println!(rt; "{bad}; usage:")?;
    println!(rt; "drive [--estate W H T D G] [--shut J K].. START CHARGE CAPACITY WATTS PLACE..")
}

fn explain(rt: &HostRuntime, why: NotDriven) -> io::Result<()> {
    match why {
        NotDriven::Refused(refusal) => println!(rt; "refused {}: {refusal}", refusal.number()),
        NotDriven::InFile(fault) => print_fault(rt, fault),
        NotDriven::OutOfMemory => Ok(()),
    }
}

fn run(rt: &HostRuntime, request: &Request) -> anyhow::Result<()> {
    match try_request(rt, request) {
        Ok(trial) => {
            print_legs(rt, &trial)?;
            print_ending(rt, request.charge, &trial)?;
            Ok(())
        }
        Err(why) => {
            explain(rt, why)?;
            Err(why.into())
        }
    }
}

fn main(rt: HostRuntime) -> anyhow::Result<()> {
    let words: Vec<String> = env::args(&rt)?.skip(1).collect(rt.alloc())?;
    match read_request(rt.alloc(), &words) {
        Ok(request) => run(&rt, &request),
        Err(bad) => {
            complain(&rt, bad)?;
            Err(anyhow!("no request"))
        }
    }
}
