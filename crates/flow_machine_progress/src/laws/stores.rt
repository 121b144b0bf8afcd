// What is to be stored.

ghost use Rattle.flow_machine_progress.specs.Stores as law;

use flow_machine::host::Host;

/// No promise is to be stored: each task keeps this, and so do what the world brings and the call of
/// `main`.
pub fn no_promise_is_stored()
    ensures tasks { law.TaskStoresNone }
    ensures brought { law.DeliveredStoresNone }
    ensures main { law.MainStoresNone }
{}

/// So does what the world makes of a call.
pub fn answers_store_no_promise<H: Host>()
    ensures { law.ServedStoresNone H.serves H.shows H.wrote }
{}
