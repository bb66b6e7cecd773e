// Worked figures of the kinds, proved of their rules.
ghost use Rattle.kinds.specs.Figures.{Hold, figures};

// The figures hold.
pub fn figures_stand()
    ensures { Hold figures }
{}
