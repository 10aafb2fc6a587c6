//! The rules of clients: distinct names, and not too many.

ghost use Rattle.std.specs.Prelude.{◌≡◌, [], None, Some, if◌then◌else◌};
ghost use Rattle.lang_base.specs.declared.source_fault.Refusal.TheVariants.{DuplicateClient};
ghost use Rattle.lang_base.specs.SourceFaults.{fault_at, least};
ghost use Rattle.lang_script.specs.Faults.{doubled, over_clients};

use lang_base::limits::CLIENTS;
use lang_base::{Refusal, SourceFault, earlier_of, is_repeated};
use lang_tree::ClientTree;

/// The first client with the name of an earlier one.
pub(crate) fn doubled_client(clients: &[ClientTree]) -> Option<SourceFault>
    ensures { result ≡ least (doubled [] clients.now) }
{
    let mut fault = None;
    for (i, client) in clients.iter().enumerate() {
        let again = is_repeated(clients, i);
        fault = earlier_of(fault, doubled_at(again, client.at));
    }
    fault
}

/// The name that stands here is an earlier one's.
fn doubled_at(again: bool, at: u32) -> Option<SourceFault>
    ensures { result ≡ (if again then Some (fault_at DuplicateClient at) else None) }
{
    if again {
        Some(SourceFault {
            at,
            what: Refusal::DuplicateClient,
        })
    } else {
        None
    }
}

/// The first client over the limit.
pub(crate) fn over_clients(clients: &[ClientTree]) -> Option<SourceFault>
    ensures { result ≡ least (over_clients clients.now) }
{
    match clients.get(CLIENTS) {
        Some(client) => Some(SourceFault {
            at: client.at,
            what: Refusal::TooManyClients,
        }),
        None => None,
    }
}
