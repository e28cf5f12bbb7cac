// The desk of an open house: its registers, the lines that were written last, and the statements that it has yet to end.
use crate::answer::Answer;
use crate::held::place_held;
use crate::print::{print_lines, print_withdrawn};
use calls::{
    ContractCall, FacilityCall, HalfHourCall, IntervalCall, LoadCall, StampedCall, VestingCall,
};
use figures::Line;
use format::call::Call;
use format::line::said;
use gather::{Readings, Rows};
use house::{House, read_facility, read_load, take_contract};
use lines::line::Lines;
use rows::{ContractRow, FacilityReading, Interval, LoadReading, VestingRow};
use statement::{Statement, npsc, withdraw, write_preliminary};
use std::alloc::{AllocError, Global};
use std::io;
use units::ACCOUNTS;

// The rows that each register has room for.
const ROWS: usize = 512;

// A statement can be neither dropped nor copied, and so can no desk be dropped: it is closed.
pub(crate) struct Desk {
    house: House,
    intervals: Vec<Option<Interval>>,
    facilities: Vec<Option<FacilityReading>>,
    loads: Vec<Option<LoadReading>>,
    contracts: Vec<Option<ContractRow>>,
    vestings: Vec<Option<VestingRow>>,
    // of the last accepted preliminary statement
    lines: Option<[Line; ACCOUNTS]>,
    // in the order in which they were handed out
    statements: Vec<Statement>,
}

impl Desk {
    // The desk of a house, with every register vacant and nothing held.
    pub(crate) fn new(heap: Global, house: House) -> Result<Desk, AllocError> {
        let intervals = vec![in heap; None; ROWS]?;
        let facilities = vec![in heap; None; ROWS]?;
        let loads = vec![in heap; None; ROWS]?;
        let contracts = vec![in heap; None; ROWS]?;
        let vestings = vec![in heap; None; ROWS]?;
        Ok(Desk {
            house,
            intervals,
            facilities,
            loads,
            contracts,
            vestings,
            lines: None,
            statements: Vec::new(heap),
        })
    }

    // A method for each call: each hands over other registers.
    fn interval(&mut self, call: &IntervalCall) -> Answer {
        let intervals = self.intervals.as_mut_slice();
        self.house.open_interval(intervals, call).into()
    }

    fn facility(&mut self, call: &FacilityCall) -> Answer {
        let intervals = self.intervals.as_mut_slice();
        let facilities = self.facilities.as_mut_slice();
        read_facility(intervals, facilities, call).into()
    }

    fn load(&mut self, call: &LoadCall) -> Answer {
        let intervals = self.intervals.as_mut_slice();
        let loads = self.loads.as_mut_slice();
        read_load(intervals, loads, call).into()
    }

    fn contract(&mut self, call: &ContractCall) -> Answer {
        let intervals = self.intervals.as_slice();
        let contracts = self.contracts.as_mut_slice();
        take_contract(intervals, contracts, call).into()
    }

    fn vesting(&mut self, call: &VestingCall) -> Answer {
        let intervals = self.intervals.as_slice();
        let vestings = self.vestings.as_mut_slice();
        self.house.take_vesting(intervals, vestings, call).into()
    }

    // Makes room for the statement first, so that none is handed out that could not be held.
    fn preliminary(&mut self, call: &StampedCall) -> Result<Answer, AllocError> {
        self.statements.reserve(1)?;
        let mut lines = [Line::blank(); ACCOUNTS];
        let rows = Rows {
            readings: Readings {
                facilities: self.facilities.as_slice(),
                loads: self.loads.as_slice(),
            },
            contracts: self.contracts.as_slice(),
            vestings: self.vestings.as_slice(),
        };
        let intervals = self.intervals.as_mut_slice();
        let written = write_preliminary(&self.house, intervals, &rows, &mut lines, call);
        match written {
            Ok(statement) => {
                self.statements.push_reserved(statement);
                self.lines = Some(lines);
                Ok(Answer::Written)
            }
            Err(refusal) => Ok(refusal.into()),
        }
    }

    fn withdrawal(&mut self, call: &HalfHourCall) -> Answer {
        let Some(place) = place_held(self.statements.as_slice(), call.day, call.interval) else {
            return Answer::Missing;
        };
        let statement = self.statements.remove(place);
        let intervals = self.intervals.as_mut_slice();
        withdraw(&self.house, intervals, statement).into()
    }

    // The lines that were written last: none before the first accepted preliminary statement.
    fn lines(&self) -> &[Line] {
        match &self.lines {
            Some(lines) => lines,
            None => &[],
        }
    }

    fn credit(&self, participant: i64) -> Answer {
        match npsc(&self.house, participant, self.lines()) {
            Ok(amount) => Answer::Credited(participant, amount),
            Err(refusal) => refusal.into(),
        }
    }

    // The answer to a call.
    fn answer(&mut self, call: &Call) -> Result<Answer, AllocError> {
        let answer = match call {
            Call::House(_) => Answer::HouseOpen,
            Call::Interval(call) => self.interval(call),
            Call::Facility(call) => self.facility(call),
            Call::Load(call) => self.load(call),
            Call::Contract(call) => self.contract(call),
            Call::Vesting(call) => self.vesting(call),
            Call::Preliminary(call) => self.preliminary(call)?,
            Call::Withdraw(call) => self.withdrawal(call),
            Call::Npsc(participant) => self.credit(*participant),
        };
        Ok(answer)
    }

    // Answers a line, if it says anything.
    fn answer_line(&mut self, rt: &HostRuntime, line: &[u8]) -> io::Result<()> {
        let answer = match said(line) {
            Ok(None) => return Ok(()),
            Ok(Some(call)) => self.answer(&call)?,
            Err(malformed) => malformed.into(),
        };
        println!(rt; "{answer}")?;
        if let Answer::Written = answer {
            print_lines(rt, self.lines())?;
        }
        Ok(())
    }

    // Answers each line.
    pub(crate) fn answer_lines(&mut self, rt: &HostRuntime, lines: Lines) -> io::Result<()> {
        for line in lines {
            self.answer_line(rt, line)?;
        }
        Ok(())
    }

    // Withdraws every statement that is still held, and says so of each for as long as it can.
    pub(crate) fn close(self, rt: &HostRuntime) -> io::Result<()> {
        let Desk {
            house,
            mut intervals,
            facilities: _,
            loads: _,
            contracts: _,
            vestings: _,
            lines: _,
            mut statements,
        } = self;
        // Taken out one by one: an iterator over them could be dropped with some left, and no statement may be dropped.
        let mut told = Ok(());
        while !statements.is_empty() {
            let statement = statements.remove(0);
            let half_hour = statement.half_hour();
            let ended = withdraw(&house, intervals.as_mut_slice(), statement);
            if told.is_ok() {
                told = print_withdrawn(rt, half_hour, ended);
            }
        }
        statements.destroy_empty();
        told
    }
}
