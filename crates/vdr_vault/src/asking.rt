// What a query asks for, and whether it is there.
ghost use Rattle.std.specs.Prelude.{◌≡◌, length};
ghost use Rattle.vdr_entry.specs.Queries.{asked, asked_medium};
ghost use Rattle.vdr_visit.specs.Refusals.{lacks_channel, lacks_incident, unanswered};

use crate::Vault;
use vdr_config::Config;
use vdr_entry::{Medium, Query};
use vdr_visit::VisitRefused;

// Whether a channel is asked for that is not configured.
fn lacks_channel(config: &Config, channel: Option<u8>) -> bool
    ensures { result ≡ lacks_channel (length config.now.channels) channel }
{
    match channel {
        Some(number) => config.channels.len() <= number as usize,
        None => false,
    }
}

// Whether an incident is asked for that is not live.
fn lacks_incident(vault: &Vault, medium: Medium) -> bool
    ensures { result ≡ lacks_incident vault.now.table (asked_medium medium) }
{
    match medium {
        Medium::Capsule | Medium::LongTerm => false,
        Medium::Incident(id) => vault.live(id).is_none(),
    }
}

/// Whether a query asks for a channel that is configured and for an incident that is live, where it asks for one.
pub fn accept<R>(vault: &Vault, query: &Query) -> Result<(), VisitRefused<R>>
    ensures { result ≡ unanswered (lacks_channel (length vault.now.config.channels) query.now.channel) (lacks_incident vault.now.table (asked query.now).medium) }
{
    if lacks_channel(vault.config(), query.channel) {
        return Err(VisitRefused::NoChannel);
    }
    if lacks_incident(vault, query.medium) {
        return Err(VisitRefused::NoIncident);
    }
    Ok(())
}
