// Worked answers, whose proofs the check asks for here.
ghost use Rattle.truncation.specs.Readings.{ChangesOfClock, LeastTimes, TimesAroundZero};

// Truncations at changes of the clock.
fn changes()
    ensures { ChangesOfClock }
{}

// Times of day around zero and at the least value of each width.
fn times()
    ensures zero { TimesAroundZero }
    ensures least { LeastTimes }
{}
