//! A service's identifier.
ghost use Rattle.std.specs.Prelude.{◌≡◌, ◌↔◌, IsTrue};
ghost use Rattle.command_line.specs.Command.{IsService, prefix_of};

use crate::bounds::{LONGEST_PREFIX, LONGEST_SERVICE};

/// The text before the first `/`, or all of it.
pub fn prefix_of(service: &str) -> &str
    ensures { result.now ≡ prefix_of service.now }
{
    match service.split_once('/') {
        Some((prefix, _)) => prefix,
        None => service,
    }
}

/// Whether a service can have this identifier.
pub(crate) fn is_service(text: &str) -> bool
    ensures { IsTrue result ↔ IsService text.now }
{
    if text.is_empty() || text.len() > LONGEST_SERVICE {
        return false;
    }
    prefix_of(text).len() <= LONGEST_PREFIX
}
