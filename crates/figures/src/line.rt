// A statement's line: an account and its figures, in millicents.
ghost use Rattle.units.specs.Ranges.{Account, Around};

use std::fmt;
use units::Money;

#[derive(Clone, Copy)]
pub struct Line {
    pub account: u16,
    pub gesc: Money,
    pub lesd: Money,
    pub bsc: Money,
    pub vcsc: Money,
    pub fee: Money,
    pub heuc: Money,
    pub nasc: Money,
    ghost account_ok: { Account account },
    ghost gesc_ok: { Around 1000000000000000000 gesc.0 },
    ghost lesd_ok: { Around 1000000000000000000 lesd.0 },
    ghost bsc_ok: { Around 1000000000000000000 bsc.0 },
    ghost vcsc_ok: { Around 1000000000000000000 vcsc.0 },
    ghost fee_ok: { Around 1000000000000000000 fee.0 },
    ghost heuc_ok: { Around 1000000000000000000 heuc.0 },
    ghost nasc_ok: { Around 1000000000000000000 nasc.0 },
}

impl Line {
    ghost use Rattle.std.specs.Prelude.{◌≡◌};
    ghost use Rattle.figures.specs.Line.{NoFigures};

    // A line of account 1 with no figures, to be written over.
    pub fn blank() -> Line
        ensures account { result.account ≡ 1 }
        ensures figures { NoFigures result }
    {
        let nothing = Money(0);
        Line {
            account: 1,
            gesc: nothing,
            lesd: nothing,
            bsc: nothing,
            vcsc: nothing,
            fee: nothing,
            heuc: nothing,
            nasc: nothing,
        }
    }
}

// A line is written as its account and its figures, with commas between them.
impl fmt::Display for Line {
    ghost use Rattle.std.specs.Prelude.{Some};
    ghost use Rattle.figures.specs.Line.{line_text};

    ghost output = { λ l. Some (line_text l) };

    fn fmt<W: fmt::Write>(&self, f: &mut fmt::Formatter<W>) -> fmt::Result {
        write!(
            f,
            "{},{},{},{},{},{},{},{}",
            self.account, self.gesc, self.lesd, self.bsc, self.vcsc, self.fee, self.heuc, self.nasc
        )
    }
}
