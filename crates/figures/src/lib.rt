// Worked figures: what the definitions that the contracts cite give at small numbers. The function's contract is the list of them,
// so that the check asks for their proof.
#![tactic(auto)]

ghost use Rattle.figures.specs.Figures.{FiguresStand};

// Every figure stands.
pub fn figures_stand()
    ensures { FiguresStand }
{}
