//! The senders on the command line.
ghost use Rattle.std.specs.Prelude.{MatchOption, map, option_map};
ghost use Rattle.run_settings.specs.declared.sender.AllowedSender.{AllowedSender};
ghost use Rattle.command_words.specs.Addresses.{AreSpelled};
ghost use Rattle.command_words.specs.Readings.{Finds, OrNoMemory, mapped};
ghost use Rattle.command_words.specs.SenderLists.{IsSenderText, ReadsNamedSenders, ReadsSenders};
ghost use Rattle.command_words.specs.declared.refusal.Refusal.TheVariants.{BadSender};

use crate::refusal::Refusal;
use run_settings::{AllowedSender, Senders};
use std::alloc::Global;
use std::net::{IpAddr, SocketAddr};

/// Returns the sender that the text spells, `None` where it spells none.
fn sender_of(text: &str) -> Option<AllowedSender>
    ensures { MatchOption result ((sender : AllowedSender) → IsSenderText text.now sender → ⊥)
        (IsSenderText text.now) }
{
    match IpAddr::parse_ascii(text.as_bytes()) {
        Ok(address) => Some(AllowedSender {
            address,
            port: None,
        }),
        Err(_) => match SocketAddr::parse_ascii(text.as_bytes()) {
            Ok(from) => Some(AllowedSender {
                address: from.ip(),
                port: Some(from.port()),
            }),
            Err(_) => None,
        },
    }
}

/// Returns the senders that the texts spell, in order.
fn spelled_senders(alloc: Global, texts: &[&str]) -> Result<Vec<AllowedSender>, Refusal>
    ensures { OrNoMemory
        (Finds (AreSpelled IsSenderText (map (λ text. text.now) texts.now)) BadSender)
        (mapped (λ senders. senders.items) result) }
{
    let mut senders = Vec::with_capacity(alloc, texts.len())?;
    for text in texts {
        let Some(sender) = sender_of(text) else {
            return Err(Refusal::BadSender);
        };
        if senders.push(sender).is_err() {
            return Err(Refusal::NoMemory);
        }
    }
    Ok(senders)
}

/// Returns the senders that a list names, if there is one; without it any.
fn read_senders(alloc: Global, list: Option<&str>) -> Result<Senders, Refusal>
    ensures { ReadsSenders (option_map (λ list. list.now) list.entry) result }
{
    let Some(list) = list else {
        return Ok(Senders::Any);
    };
    let texts: Vec<&str> = list.split(',').collect(alloc)?;
    match spelled_senders(alloc, texts.as_slice()) {
        Ok(senders) => Ok(Senders::These(senders)),
        Err(refusal) => Err(refusal),
    }
}

/// Returns the senders that a list names, which is given by one of its two names, if by any.
pub fn read_named_senders(
    alloc: Global,
    senders: Option<&str>,
    from: Option<&str>,
) -> Result<Senders, Refusal>
    ensures { ReadsNamedSenders (option_map (λ list. list.now) senders.entry)
        (option_map (λ list. list.now) from.entry) result }
{
    match (senders, from) {
        (Some(_), Some(_)) => Err(Refusal::SendersWithFrom),
        (Some(list), None) => read_senders(alloc, Some(list)),
        (None, list) => read_senders(alloc, list),
    }
}
