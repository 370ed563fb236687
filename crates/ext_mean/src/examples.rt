ghost use Rattle.ext_mean.specs.Examples.{Examples};

/// What some small programs mean, as computed examples.
pub fn worked_examples()
    ensures { Examples }
{}
