//! What follows over the whole life of a device, each law as the contract of a function that does
//! nothing.

ghost use Rattle.boot_keeper.specs.Runs.{BootsAreCounted, BootsRise};

/// The boots of a device that began with zeros rise, over all calls, failures and crashes.
pub fn boots_rise()
    ensures { BootsRise }
{}

/// Where no call of its keeper fails and no crash comes, they are counted from 1.
pub fn boots_are_counted()
    ensures { BootsAreCounted }
{}
