ghost use Rattle.docket.specs.Claims.{PlaysAreSpelled};

// Bytes that pass the check of plays spell exactly one play at each place.
pub fn plays_are_spelled()
    ensures { PlaysAreSpelled }
{}
