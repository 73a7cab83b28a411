//! A road file, line by line, into tables.
ghost use Rattle.std.specs.Prelude.{◌≡◌, ◌≤◌, min};
ghost use Rattle.files.specs.Tables.{tables};
ghost use Rattle.files.specs.Files.{ReadAs};
ghost use Rattle.files.specs.RoadFile.{road_tables};
ghost use Rattle.files.specs.RoadLaw.{road_lines, MapsTheRoads};

use crate::fault::{FileName, ReadFault};
use crate::lines::LineReader;
use crate::roads::RoadColumn;
use crate::rows::{next_row, read_columns};
use crate::tables::RoadTables;
use maps::MOST_JUNCTIONS;
use std::alloc::Global;

fn read_tables(heap: Global, text: &[u8], room: u32) -> Result<RoadTables, ReadFault>
    requires { room ≤ 9600 }
    ensures { ReadAs tables result (road_tables room text.now) }
{
    let mut tables = RoadTables::new(heap, room)?;
    let mut lines = LineReader::new(FileName::Roads, text);
    let columns = read_columns(&mut lines, RoadColumn::ALL)?;
    while let Some(road) = next_row(&mut lines, &columns, room)? {
        lines.placed(tables.put(road))?;
    }
    Ok(tables.trimmed())
}

/// The tables of a road file whose junctions are below `room`, or its first fault from the top.
/// A room above 9,600 is taken as 9,600, the most junctions that a map has.
pub fn read_roads(heap: Global, text: &[u8], room: u32) -> Result<RoadTables, ReadFault>
    ensures tables_or_first_fault { ReadAs tables result (road_tables (min room 9600) text.now) }
    ensures tables_map_the_roads { MapsTheRoads result (road_lines (min room 9600) text.now) }
{
    read_tables(heap, text, room.min(MOST_JUNCTIONS))
}
