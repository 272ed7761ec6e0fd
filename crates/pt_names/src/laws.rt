//! What holds of a registry, as the contract of a function that does nothing.

ghost use Rattle.pt_names.specs.Past.{KeepMonitors};

/// Through any calls of a registry, a name has the process that was registered last, with the monitor that was made of it
/// then, until the name is unregistered or the `DOWN` of that monitor is shown to the registry. Then nobody has the name.
pub fn names_keep_their_monitors()
    ensures { KeepMonitors }
{}
