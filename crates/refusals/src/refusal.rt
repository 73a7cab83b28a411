//! The whole list in one file: the cases, their numbers, their sentences.
//! Numbers 1 to 26 are caused by what a call is given, 31 to 37 by the state that a call finds.
ghost use Rattle.std.specs.Prelude.{◌≡◌};
ghost use Rattle.refusals.specs.Numbers.{number};

use thiserror::Error;

/// Why a call was refused. A refused call leaves everything as it found it.
#[derive(Clone, Copy, PartialEq, Eq, Debug, Error)]
pub enum Refusal {
    #[error("The start is not a junction of the map.")]
    StartOffMap,
    #[error("The goal is not a junction of the map.")]
    GoalOffMap,
    #[error("The van cannot carry the load at the start.")]
    StartLoadNotAdmitted,
    #[error("The deadline is above 999,999 seconds.")]
    DeadlineTooLate,
    #[error("The label table has no record, or more than 65,535.")]
    LabelTableSize,
    #[error("The waiting table has under twelve records a label.")]
    WaitingTableTooShort,
    #[error("The budget is not from 1 to 65,535.")]
    BudgetOutOfRange,
    #[error("The capacity is not from 1 to 100,000 watt-hours.")]
    CapacityOutOfRange,
    #[error("The junction is not one of the map.")]
    JunctionOffMap,
    #[error("The place is above 11.")]
    PlaceAboveEleven,
    #[error("The heater's power is above 6,000 watts.")]
    HeaterPowerTooHigh,
    #[error("A road's time is not from 1 to 7,200 seconds.")]
    RoadTimeOutOfRange,
    #[error("A road's draw is not within 100,000 watt-hours.")]
    RoadDrawOutOfRange,
    #[error("The tables' lengths disagree, or n is above 9,600.")]
    TableLengthsDisagree,
    #[error("A junction's count of roads is above 12.")]
    CountAboveTwelve,
    #[error("A road leads to no junction of the map.")]
    HeadOffMap,
    #[error("The estate has no junction, or more than 9,600.")]
    EstateSizeOutOfRange,
    #[error("The estate's flat draw or rise is above 50,000.")]
    EstateDrawTooHigh,
    /// Holds the count of records that the buffer would need.
    #[error("The buffer has too few records. It would need {0}.")]
    BufferTooShort(u32),
    #[error("The first line does not hold the file's names.")]
    WrongNames,
    #[error("The line has a field too few, too many or empty.")]
    FieldCountDiffers,
    #[error("The field is not a value.")]
    NotAValue,
    #[error("The tables have no room for the junction.")]
    JunctionBeyondRoom,
    #[error("The junction has twelve roads already.")]
    ThirteenthRoad,
    #[error("The line is not ended.")]
    LineNotEnded,
    #[error("The file is unreadable, or over 32,768 bytes.")]
    FileUnreadable,
    #[error("The search has not begun.")]
    NotBegun,
    #[error("The junctions or a table are not as at the start.")]
    NotAsBegun,
    #[error("The label is not listed.")]
    LabelNotListed,
    #[error("The place is shut already.")]
    PlaceAlreadyShut,
    #[error("The place is not shut.")]
    PlaceNotShut,
    #[error("Sixty-four places are shut already.")]
    SixtyFourShut,
    #[error("The search did not begin with the plain profile.")]
    NotPlainProfile,
}

impl Refusal {
    /// The refusal's number: one for each case, and no two alike.
    // One variant holds a count, so the numbers cannot stand as discriminants and be read by a cast.
    pub fn number(self) -> u8
        ensures { result ≡ number self }
    {
        match self {
            Refusal::StartOffMap => 1,
            Refusal::GoalOffMap => 2,
            Refusal::StartLoadNotAdmitted => 3,
            Refusal::DeadlineTooLate => 4,
            Refusal::LabelTableSize => 5,
            Refusal::WaitingTableTooShort => 6,
            Refusal::BudgetOutOfRange => 7,
            Refusal::CapacityOutOfRange => 8,
            Refusal::JunctionOffMap => 9,
            Refusal::PlaceAboveEleven => 10,
            Refusal::HeaterPowerTooHigh => 11,
            Refusal::RoadTimeOutOfRange => 12,
            Refusal::RoadDrawOutOfRange => 13,
            Refusal::TableLengthsDisagree => 14,
            Refusal::CountAboveTwelve => 15,
            Refusal::HeadOffMap => 16,
            Refusal::EstateSizeOutOfRange => 17,
            Refusal::EstateDrawTooHigh => 18,
            Refusal::BufferTooShort(_) => 19,
            Refusal::WrongNames => 20,
            Refusal::FieldCountDiffers => 21,
            Refusal::NotAValue => 22,
            Refusal::JunctionBeyondRoom => 23,
            Refusal::ThirteenthRoad => 24,
            Refusal::LineNotEnded => 25,
            Refusal::FileUnreadable => 26,
            Refusal::NotBegun => 31,
            Refusal::NotAsBegun => 32,
            Refusal::LabelNotListed => 33,
            Refusal::PlaceAlreadyShut => 34,
            Refusal::PlaceNotShut => 35,
            Refusal::SixtyFourShut => 36,
            Refusal::NotPlainProfile => 37,
        }
    }
}
