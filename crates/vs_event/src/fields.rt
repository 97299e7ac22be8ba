//! The numbers of an event, as words.

ghost use Rattle.std.specs.Prelude.{[], ◌∷◌, decimal};
ghost use Rattle.vs_base.specs.Numbers.{IsBucketId, IsClientNo, IsOpNo, IsSetNo};
ghost use Rattle.vs_text.specs.Number.{Reads, ReadsNumber};
ghost use Rattle.vs_text.specs.Split.{words_of};
ghost use Rattle.vs_event.specs.Event.{IsRestartBy, kept_word, restart_words};
ghost use Rattle.vs_event.specs.Reading.{Names};

use crate::event::RestartBy;
use vs_base::{BucketId, ClientNo, OpNo, SetNo};
use vs_text::{number_between, split_once};

pub(crate) fn client(word: &[u8]) -> Option<ClientNo>
    ensures { ReadsNumber IsClientNo word.now result }
{
    match number_between(word, 1, u64::from(ClientNo::MAX)) {
        Some(number) => ClientNo::new(number as u8),
        None => None,
    }
}

pub(crate) fn operator(word: &[u8]) -> Option<OpNo>
    ensures { ReadsNumber IsOpNo word.now result }
{
    match number_between(word, 1, u64::from(OpNo::MAX)) {
        Some(number) => OpNo::new(number as u8),
        None => None,
    }
}

pub(crate) fn set(word: &[u8]) -> Option<SetNo>
    ensures { ReadsNumber IsSetNo word.now result }
{
    match number_between(word, 1, u64::from(SetNo::MAX)) {
        Some(number) => SetNo::new(number as u8),
        None => None,
    }
}

pub(crate) fn bucket(word: &[u8]) -> Option<BucketId>
    ensures { ReadsNumber IsBucketId word.now result }
{
    match number_between(word, 1, u64::from(BucketId::MAX)) {
        Some(number) => BucketId::new(number as u32),
        None => None,
    }
}

/// The set that is all of these words.
pub(crate) fn last_set(words: &[u8]) -> Option<SetNo>
    ensures { Reads IsSetNo (λ s. decimal s ∷ []) (words_of words.now) result }
{
    set(words)
}

/// The operator that is all of these words.
pub(crate) fn last_operator(words: &[u8]) -> Option<OpNo>
    ensures { Reads IsOpNo (λ o. decimal o ∷ []) (words_of words.now) result }
{
    operator(words)
}

pub(crate) fn kept(word: &[u8]) -> Option<bool>
    ensures { Names kept_word word.now result }
{
    match word {
        b"kept" => Some(true),
        b"bare" => Some(false),
        _ => None,
    }
}

pub(crate) fn restart_by(words: &[u8]) -> Option<RestartBy>
    ensures { Reads IsRestartBy restart_words (words_of words.now) result }
{
    match split_once(words, b' ') {
        Some((word, rest)) => {
            if word == b"line".as_slice() {
                Some(RestartBy::Line(last_operator(rest)?))
            } else {
                None
            }
        }
        None => {
            if words == b"service".as_slice() {
                Some(RestartBy::Service)
            } else {
                None
            }
        }
    }
}
