//! The status of an identifier.
ghost use Rattle.std.specs.Prelude.{◌≡◌};
ghost use Rattle.doip_exchange.specs.Answer.{status_named};

use doip_json::Str;
use doip_message::Status;

/// The status that has this identifier, `Foreign` with it if no other has.
pub fn status_of(id: Str) -> Status
    ensures { result ≡ status_named id }
{
    match id.get() {
        "0.DOIP/Status.001" => Status::Done,
        "0.DOIP/Status.101" => Status::Invalid,
        "0.DOIP/Status.102" => Status::NotAuthenticated,
        "0.DOIP/Status.103" => Status::NotPermitted,
        "0.DOIP/Status.104" => Status::Unknown,
        "0.DOIP/Status.105" => Status::InUse,
        "0.DOIP/Status.200" => Status::Declined,
        "0.DOIP/Status.500" => Status::Other500,
        _ => Status::Foreign(id),
    }
}
