//! The worked drives: what the rules of maps, loads, the front, charts and the search give on two small maps.
#![tactic(auto)]

ghost use Rattle.worked.specs.WorkedDrives.{WorkedDrives};

/// The worked drives, together; it computes nothing.
pub fn worked_drives()
    ensures { WorkedDrives }
{}
