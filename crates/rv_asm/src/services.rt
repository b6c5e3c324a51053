//! Service calls in an assembler text.

ghost use Rattle.std.specs.Prelude.{◌≡◌, pos};
ghost use Rattle.rv_asm.specs.Parsing.{service_named};
ghost use Rattle.wedge_base.specs.Services.{service_number};

use wedge_base::{SERVICES, Service};

/// The service call that has a name.
pub(crate) fn service_named(name: &[u8]) -> Option<Service>
    ensures { result ≡ service_named name.now }
{
    SERVICES
        .iter()
        .copied()
        .find(|service| service.name().as_bytes() == name)
}

/// The number of a service call, as the immediate of the instruction that puts it in a7.
#[tactic(auto, using(crate::proofs::ServiceNumbers::service_number_small))]
pub(crate) fn service_immediate(service: Service) -> i32
    ensures { result ≡ pos (service_number service) }
{
    service.number() as i32
}
