// Worked figures of the sheet, proved of what its calls promise.
ghost use Rattle.kinds.specs.Figures.{Hold};
ghost use Rattle.newton.specs.Figures.{figures};

// The figures hold, those of the kinds among them.
pub fn figures_stand()
    ensures { Hold figures }
{
    kinds::figures::figures_stand();
}
