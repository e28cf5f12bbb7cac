// The formulas of a half hour: the definitions of every figure are in specs/, their laws in proofs/.
#![tactic(auto)]

ghost use Rattle.formulas.specs.Laws.{CorrectionsJoin};

// Two corrections of one half hour come to what one correction from the first values to the last comes to.
pub fn corrections_join()
    ensures { CorrectionsJoin }
{}
