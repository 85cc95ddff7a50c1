// The law of the checked words, for the layers above. It holds of the definitions, so that the function does nothing.
ghost use Rattle.image_checks.specs.Chains.{KeepsFive};

/// Where forwarders are resolved, the first five chunks are as they were.
pub fn keeps_five()
    ensures { KeepsFive }
{}
