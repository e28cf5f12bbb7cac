// The registers of a half hour's rows, handed over for reading.
use rows::contract::ContractRow;
use rows::facility::FacilityReading;
use rows::load::LoadReading;
use rows::vesting::VestingRow;

// The registers of readings, which corrections change.
#[derive(Clone, Copy)]
pub struct Readings<'a> {
    pub facilities: &'a [Option<FacilityReading>],
    pub loads: &'a [Option<LoadReading>],
}

// All registers that figures are worked from. The intervals are not among them: the calls that read these write those.
#[derive(Clone, Copy)]
pub struct Rows<'a> {
    pub readings: Readings<'a>,
    pub contracts: &'a [Option<ContractRow>],
    pub vestings: &'a [Option<VestingRow>],
}
