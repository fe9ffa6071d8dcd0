//! A law of the premise on a file.

ghost use Rattle.sect_dev.specs.Kept.{PremiseCanBeMet};

/// Whatever changes are asked for, and however they are answered, some disk meets the premise.
#[tactic(auto, using(crate::proofs::Kept::premise_can_be_met))]
pub fn premise_can_be_met()
    ensures { PremiseCanBeMet }
{}
