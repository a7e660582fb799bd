// What the steps of the cursors make together.
ghost use Rattle.cursors.specs.Steps.{StepsMakeTheReading};

/// Step by step, a row of options, actions, attributes or action options reads as the whole row does.
pub fn steps_make_the_reading()
    ensures { StepsMakeTheReading }
{}
