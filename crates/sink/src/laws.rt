// The law of what stands after a sink's refusal.
ghost use Rattle.sink.specs.Longest.{KeptIsLongest};

// What is kept of a run is the longest beginning of it that the rule admits.
pub fn kept_is_longest()
    ensures { KeptIsLongest }
{}
