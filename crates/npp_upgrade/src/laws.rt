//! A law of certificates in the second form. The function does nothing.

ghost use Rattle.npp_upgrade.specs.Upgraded.{UpgradesAreAccepted};

/// A certificate that is accepted is accepted in the second form too, and with the same pair.
pub fn upgraded_certificates_are_accepted()
    ensures { UpgradesAreAccepted }
{}
