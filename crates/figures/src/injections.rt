// The inputs of one half hour, with what every account's facilities come to.
ghost use Rattle.figures.specs.Meaning.{basis_of};
ghost use Rattle.figures.specs.Working.{AllTotalled};

use crate::injected::Injected;
use records::Inputs;
use units::ACCOUNTS;

#[derive(Clone, Copy)]
pub(crate) struct Injections<'a> {
    pub(crate) inputs: &'a Inputs,
    // by rising account
    pub(crate) injected: [Injected; ACCOUNTS],
    ghost totalled: { AllTotalled (basis_of inputs.now).facility injected },
}
