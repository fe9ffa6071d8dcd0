// Laws of versions: the pairs that each allows, and upgrades. What each says stands in
// `specs/AllowedPairs.antt` and `specs/Upgrades.antt`.
ghost use Rattle.dbm_model.specs.AllowedPairs.{AllowedExamples, AllowedGrows, FirstIsNear, FarIsBounded};
ghost use Rattle.dbm_model.specs.Upgrades.{SecondIsTold, SmallIsRefused, UpgradeKeeps, UpgradeRaises, UpgradeIsNeverShort, UpgradeExamples};

/// Which pairs are allowed: each of version 1 in version 2 too, and there a far one with a short
/// key.
pub fn pairs_by_version()
    ensures examples { AllowedExamples }
    ensures grows { AllowedGrows }
    ensures near { FirstIsNear }
    ensures far { FarIsBounded }
{}

/// An upgrade keeps the map, the limit and the pass. It tells where it is version 2, is refused
/// where the device is too small, and never for want of memory or room.
pub fn upgrades_are_due()
    ensures told { SecondIsTold }
    ensures small { SmallIsRefused }
    ensures keeps { UpgradeKeeps }
    ensures raises { UpgradeRaises }
    ensures never_short { UpgradeIsNeverShort }
    ensures examples { UpgradeExamples }
{}
