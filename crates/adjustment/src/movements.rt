// How far the readings of one half hour moved, with what every account's facilities come to.
ghost use Rattle.records.specs.Moved.{moves_of};
ghost use Rattle.figures.specs.Working.{AllTotalled};

use figures::Injected;
use records::Differences;
use units::ACCOUNTS;

// Of the shape of figures' injections, which are of inputs. What they are worked from and what is worked from them differ:
// a trait of the source would have one method and no second use.
#[derive(Clone, Copy)]
pub(crate) struct Movements<'a> {
    pub(crate) differences: &'a Differences,
    // by rising account: of its totals an adjustment takes the moved energy and what it earned
    pub(crate) injected: [Injected; ACCOUNTS],
    ghost totalled: { AllTotalled (moves_of differences.now).facility injected },
}
