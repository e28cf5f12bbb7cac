// The desk at which a half hour is taken in, line by line, each held to the charter's checks in their order.
ghost use Rattle.std.specs.Prelude.{◌<◌, IfOk};
ghost use Rattle.units.specs.Ranges.{accounts};

use crate::stop::Stop;
use calls::{ContractCall, FacilityCall, IntervalCall, LoadCall, VestingCall};
use format::call::Call;
use house::Opening;
use records::{Contract, Facility, Inputs, Load, Terms, Tranches, Vesting};
use units::range::{ACCOUNT, CONTRACT, FACILITY, TRANCHE};
use units::{HalfHour, Refusal, Stamp, Window};

// The half hour that is open, what it has been handed, and the last accepted stamp.
#[derive(Clone, Copy)]
pub struct Open {
    half_hour: HalfHour,
    last: Stamp,
    pub inputs: Inputs,
}

fn open_of(house: Opening, call: &IntervalCall) -> Result<Open, Refusal> {
    let half_hour = HalfHour::new(call.day, call.interval)?;
    let counterparty = i64::from(house.counterparty);
    let operator = i64::from(house.operator);
    let terms = Terms::new(call.usep, call.rate, counterparty, operator)?;
    let last = Stamp::new(0, 0)?;
    Ok(Open {
        half_hour,
        last,
        inputs: Inputs::new(&terms),
    })
}

impl Open {
    fn check_half_hour(&self, given: HalfHour) -> Result<(), Refusal> {
        if given != self.half_hour {
            return Err(Refusal::NotOpen);
        }
        Ok(())
    }

    fn check_stamp(&self, stamp: Stamp) -> Result<(), Refusal> {
        if stamp.is_before(self.last) {
            return Err(Refusal::StampBeforeLast);
        }
        match stamp.window() {
            Window::First | Window::Second => Ok(()),
            _ => Err(Refusal::WrongWindow),
        }
    }

    // What keeps a reading out of the half hour.
    fn check_reading(&self, half_hour: HalfHour, stamp: Stamp) -> Result<(), Refusal> {
        self.check_half_hour(half_hour)?;
        self.check_stamp(stamp)
    }

    // The place, the reading and the stamp of a facility call.
    fn facility_of(&self, call: &FacilityCall) -> Result<(usize, Facility, Stamp), Refusal>
        ensures { IfOk result (λ t. t.0 < 128) }
    {
        let half_hour = HalfHour::new(call.day, call.interval)?;
        let facility = FACILITY.take(call.facility)?;
        let reading = Facility::new(call.account, call.mep, call.ieq)?;
        let stamp = Stamp::new(call.days, call.minute)?;
        self.check_reading(half_hour, stamp)?;
        Ok((facility as usize - 1, reading, stamp))
    }

    // The place, the reading and the stamp of a load call.
    fn load_of(&self, call: &LoadCall) -> Result<(usize, Load, Stamp), Refusal>
        ensures { IfOk result (λ t. t.0 < accounts) }
    {
        let half_hour = HalfHour::new(call.day, call.interval)?;
        let account = ACCOUNT.take(call.account)? as u16;
        let reading = Load::new(call.weq, call.wfq)?;
        let stamp = Stamp::new(call.days, call.minute)?;
        self.check_reading(half_hour, stamp)?;
        Ok((account as usize - 1, reading, stamp))
    }

    // The place and the terms of a contract call.
    fn contract_of(&self, call: &ContractCall) -> Result<(usize, Contract), Refusal>
        ensures { IfOk result (λ t. t.0 < 64) }
    {
        let half_hour = HalfHour::new(call.day, call.interval)?;
        let number = CONTRACT.take(call.contract)?;
        let contract = Contract::new(call.seller, call.buyer, call.baq, call.bwf, call.bif)?;
        if contract.seller == contract.buyer {
            return Err(Refusal::SameParty);
        }
        self.check_half_hour(half_hour)?;
        Ok((number as usize - 1, contract))
    }

    // The place, the tranche and the row of a vesting call.
    fn vesting_of(&self, call: &VestingCall) -> Result<(usize, u8, Vesting), Refusal>
        ensures { IfOk result (λ t. t.0 < accounts) }
    {
        let half_hour = HalfHour::new(call.day, call.interval)?;
        let account = ACCOUNT.take(call.account)? as u16;
        let tranche = TRANCHE.take(call.tranche)? as u8;
        let row = Vesting::new(call.price, call.quantity)?;
        if account == self.inputs.terms.counterparty {
            return Err(Refusal::SameParty);
        }
        self.check_half_hour(half_hour)?;
        Ok((account as usize - 1, tranche, row))
    }

    // A method for each call: each fills another list of the inputs.
    fn take_facility(&mut self, call: &FacilityCall) -> Result<(), Refusal> {
        let (place, reading, stamp) = self.facility_of(call)?;
        self.inputs.facilities[place] = Some(reading);
        self.last = stamp;
        Ok(())
    }

    fn take_load(&mut self, call: &LoadCall) -> Result<(), Refusal> {
        let (place, reading, stamp) = self.load_of(call)?;
        self.inputs.loads[place] = Some(reading);
        self.last = stamp;
        Ok(())
    }

    fn take_contract(&mut self, call: &ContractCall) -> Result<(), Refusal> {
        let (place, contract) = self.contract_of(call)?;
        self.inputs.contracts[place] = Some(contract);
        Ok(())
    }

    fn take_vesting(&mut self, call: &VestingCall) -> Result<(), Refusal> {
        let (place, tranche, row) = self.vesting_of(call)?;
        let rows = self.inputs.vestings[place];
        self.inputs.vestings[place] = with_row(rows, tranche, row);
        Ok(())
    }

    // Takes what a call says of the half hour; a second house or interval has no place here.
    fn take(&mut self, call: &Call) -> Result<(), Stop> {
        match call {
            Call::Facility(call) => self.take_facility(call)?,
            Call::Load(call) => self.take_load(call)?,
            Call::Contract(call) => self.take_contract(call)?,
            Call::Vesting(call) => self.take_vesting(call)?,
            _ => return Err(Stop::Malformed),
        }
        Ok(())
    }
}

// How far the half hour is opened.
#[derive(Clone, Copy)]
pub(crate) enum Desk {
    Closed,
    Housed(Opening),
    Open(Open),
}

// The house that the first call opens.
fn first_house(call: &Call) -> Result<Opening, Stop> {
    match call {
        Call::House(call) => Ok(Opening::new(call)?),
        Call::Interval(_) => Err(Stop::NoHouse),
        _ => Err(Stop::NoInterval),
    }
}

// The half hour that the first call after the house opens.
fn first_interval(house: Opening, call: &Call) -> Result<Open, Stop> {
    match call {
        Call::House(_) => Err(Stop::Malformed),
        Call::Interval(call) => Ok(open_of(house, call)?),
        _ => Err(Stop::NoInterval),
    }
}

impl Desk {
    // Takes a call: the first opens the house, the second the half hour, and the others fill it.
    pub(crate) fn take(&mut self, call: &Call) -> Result<(), Stop> {
        match self {
            Desk::Closed => *self = Desk::Housed(first_house(call)?),
            Desk::Housed(house) => *self = Desk::Open(first_interval(*house, call)?),
            Desk::Open(open) => open.take(call)?,
        }
        Ok(())
    }

    // What the half hour has been handed, once it is open.
    pub(crate) fn inputs(&self) -> Result<&Inputs, Stop> {
        match self {
            Desk::Closed => Err(Stop::NoHouse),
            Desk::Housed(_) => Err(Stop::NoInterval),
            Desk::Open(open) => Ok(&open.inputs),
        }
    }
}

// The vesting rows of an account with this one in its tranche.
fn with_row(rows: Tranches, tranche: u8, row: Vesting) -> Tranches {
    let row = Some(row);
    match tranche {
        0 => Tranches { base: row, ..rows },
        1 => Tranches { first: row, ..rows },
        _ => Tranches {
            second: row,
            ..rows
        },
    }
}
