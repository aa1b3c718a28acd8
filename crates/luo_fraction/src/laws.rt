//! Laws of averages.
ghost use Rattle.luo_fraction.specs.Laws.{AverageIsOne};

/// Two numbers have one average.
pub fn average_is_one()
    ensures { AverageIsOne }
{}
