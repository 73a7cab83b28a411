//! A road line: its columns by name, and the values in them.
ghost use Rattle.std.specs.Prelude.{◌≡◌};
ghost use Rattle.std.proofs.Common.{rules};
ghost use Rattle.files.specs.Roads.{road_same, road_named, junction, seconds, watt_hours, blank_road, road_filled};

use crate::columns::{BlankRow, Column};
use crate::values::{read_signed_value, read_value};
use refusals::refusal::Refusal;

/// The columns of a road file.
#[derive(Clone, Copy, PartialEq, Eq)]
pub enum RoadColumn {
    From,
    To,
    Seconds,
    WattHours,
}

impl RoadColumn {
    pub(crate) const ALL: [RoadColumn; 4] = [
        RoadColumn::From,
        RoadColumn::To,
        RoadColumn::Seconds,
        RoadColumn::WattHours,
    ];
}

/// What a road line holds.
#[derive(Clone, Copy, Default)]
pub struct RoadLine {
    pub from: u32,
    pub to: u32,
    pub seconds: u32,
    pub draw: i32,
}

fn read_junction(field: &[u8], room: u32) -> Result<u32, Refusal>
    ensures { result ≡ junction room field.now }
{
    let junction = read_value(field)?;
    if junction >= room {
        return Err(Refusal::JunctionBeyondRoom);
    }
    Ok(junction)
}

fn read_seconds(field: &[u8]) -> Result<u32, Refusal>
    ensures { result ≡ seconds field.now }
{
    let seconds = read_value(field)?;
    if !(1..=7_200).contains(&seconds) {
        return Err(Refusal::RoadTimeOutOfRange);
    }
    Ok(seconds)
}

fn read_watt_hours(field: &[u8]) -> Result<i32, Refusal>
    ensures { result ≡ watt_hours field.now }
{
    let draw = read_signed_value(field)?;
    if !(-100_000..=100_000).contains(&draw) {
        return Err(Refusal::RoadDrawOutOfRange);
    }
    Ok(draw)
}

impl Column for RoadColumn {
    type Row = RoadLine;

    ghost same = { road_same };

    ghost named = { road_named };

    ghost equal_when_the_same = { Prim.search rules };

    ghost filled = { road_filled };

    fn from_name(name: &[u8]) -> Option<RoadColumn> {
        match name {
            b"from" => Some(RoadColumn::From),
            b"to" => Some(RoadColumn::To),
            b"seconds" => Some(RoadColumn::Seconds),
            b"watthours" => Some(RoadColumn::WattHours),
            _ => None,
        }
    }

    fn fill(self, mut row: RoadLine, room: u32, field: &[u8]) -> Result<RoadLine, Refusal> {
        match self {
            RoadColumn::From => row.from = read_junction(field, room)?,
            RoadColumn::To => row.to = read_junction(field, room)?,
            RoadColumn::Seconds => row.seconds = read_seconds(field)?,
            RoadColumn::WattHours => row.draw = read_watt_hours(field)?,
        }
        Ok(row)
    }
}

impl BlankRow for RoadColumn {
    ghost blank = { blank_road };

    fn blank() -> RoadLine {
        RoadLine::default()
    }
}
