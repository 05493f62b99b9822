// The gateway's keys: made of a key list, found by id, each with its pairs, its use count and its retirement.
#![tactic(auto)]

ghost use Rattle.std.specs.Prelude.{◌≡◌, ◌≤◌, ◌<◌, ◌+◌, ◌*◌, true, [], length, IfSome, IfOk};
ghost use Rattle.wire.specs.Refusals.{◌when◌otherwise◌, result_by};
ghost use Rattle.keylist.specs.Before.{layout_holds};
ghost use Rattle.keylist.specs.Layout.{parse, configuration_at, pairs_at, most_configurations};
ghost use Rattle.keylist.specs.Helpers.{IsGood, place_of};
ghost use Rattle.keys.specs.Keys.{offers, key_with, retire_refusal, report_of, blank_report, stored_reports, key_of, keys_of, padded};
ghost use Rattle.keys.specs.Helpers.{refusal_by_key, key_refusal, found_key, keys_from, keys_read};
ghost use Rattle.keys.specs.Stored.{most_pairs, no_pair, blank_key, stored_key, stored_keys, place_of_key, used_state, retired_state};

use algorithms::{Aead, Kdf, is_known_pair};
use keylist::check::{MOST_CONFIGURATIONS, MOST_PAIR_BYTES, check, first_read, place_in};
use keylist::{Counts, KeyId, Pair, Place};
use request::Request;
use wire::bytes::word_at;
use wire::refusal::{Reason, Refusal};

// The most pairs of a key, of four bytes each.
pub const MOST_PAIRS: usize = MOST_PAIR_BYTES / 4;

// A key. Its pairs stand first in `pairs`; it is live where `retired` is 0.
#[repr(C)]
#[derive(Clone, Copy)]
pub struct KeyState {
    pub count: u32,
    pub kem: u16,
    pub id: KeyId,
    pub retired: u8,
    pub pair_count: u8,
    pub pairs: [Pair; MOST_PAIRS],
}

// The keys in list order, first in `list`.
#[repr(C)]
#[derive(Clone, Copy)]
pub struct Keys {
    pub list: [KeyState; MOST_CONFIGURATIONS],
    pub count: u8,
}

// The keys of a list, with how many configurations were read and how many skipped.
#[derive(Clone, Copy)]
pub struct KeysRead {
    pub keys: Keys,
    pub counts: Counts,
}

// A key, as report shows it.
#[repr(C)]
#[derive(Clone, Copy, Debug, PartialEq, Eq)]
pub struct KeyReport {
    pub id: KeyId,
    pub count: u32,
    pub retired: bool,
}

impl KeyState {
    // What stands where there is no key.
    fn blank() -> Self
        ensures { result ≡ blank_key }
    {
        KeyState {
            count: 0,
            kem: 0,
            id: KeyId(0),
            retired: 0,
            pair_count: 0,
            pairs: [Pair { kdf: 0, aead: 0 }; MOST_PAIRS],
        }
    }

    // The pair is known and listed for the key.
    fn offers(&self, kdf: u16, aead: u16) -> bool
        ensures { result ≡ offers kdf aead (key_of self.now) }
    {
        is_known_pair(Kdf(kdf), Aead(aead))
            && self
                .pairs
                .iter()
                .take(self.pair_count as usize)
                .any(|pair| *pair == Pair { kdf, aead })
    }

    // One use more, unless the count is the largest number.
    pub fn use_once(&mut self)
        ensures { self.new ≡ used_state self.old }
    {
        self.count = self.count.saturating_add(1);
    }

    // Retires the key.
    pub fn retire(&mut self)
        ensures { self.new ≡ retired_state self.old }
    {
        self.retired = 1;
    }

    // The first refusal of a request that names the key.
    #[tactic(auto, unfolding(crate::specs::Helpers::refusal_by_key))]
    pub fn refusal(&self, cap: u32, request: &Request) -> Result<(), Refusal>
        ensures { result ≡ result_by (refusal_by_key cap (key_of self.now) request.now) tt }
    {
        if self.kem != request.kem {
            return Err(Refusal::from(Reason::OtherKem));
        }
        if !self.offers(request.kdf, request.aead) {
            return Err(Refusal::from(Reason::PairNotOffered));
        }
        if self.retired != 0 {
            return Err(Refusal::from(Reason::KeyRetired));
        }
        if cap <= self.count {
            return Err(Refusal::from(Reason::KeyUsedUp));
        }
        Ok(())
    }

    // The refusal to retire the key.
    pub fn retire_refusal(&self) -> Result<(), Refusal>
        ensures { result ≡ result_by (7 when (key_of self.now).retired otherwise 0) tt }
    {
        match self.retired {
            0 => Ok(()),
            _ => Err(Refusal::from(Reason::KeyRetired)),
        }
    }

    fn report(&self) -> KeyReport
        ensures { result ≡ report_of (key_of self.now) }
    {
        KeyReport {
            id: self.id,
            count: self.count,
            retired: self.retired != 0,
        }
    }
}

impl KeyReport {
    // What stands where there is no key.
    fn blank() -> Self
        ensures { result ≡ blank_report }
    {
        KeyReport {
            id: KeyId(0),
            count: 0,
            retired: false,
        }
    }
}

impl Keys {
    // No keys.
    pub fn none() -> Self
        ensures { result ≡ stored_keys [] }
    {
        Keys {
            list: [KeyState::blank(); MOST_CONFIGURATIONS],
            count: 0,
        }
    }

    // The keys of a list, none of them used or retired.
    #[tactic(auto, using(crate::proofs::Reading::read_of))]
    pub fn read(list: &[u8]) -> Result<KeysRead, Refusal>
        ensures { result ≡ keys_read list.now }
    {
        let counts = check(list)?;
        Ok(KeysRead {
            keys: read_good(list),
            counts,
        })
    }

    // The place of the key with an id, if there is one.
    pub fn find(&self, id: KeyId) -> Option<usize>
        ensures place { result ≡ found_key id.0 (keys_of self.now) }
        ensures inside { IfSome result (λ place. place < most_configurations) }
    {
        let mut keys = self.list.iter().take(self.count as usize);
        keys.position(|key| key.id == id)
    }

    // The place of the key that a request names, or why it is not admitted by that key.
    pub fn admits(&self, cap: u32, request: &Request) -> Result<usize, Refusal>
        ensures value { result ≡ result_by
            (key_refusal cap (keys_of self.now) (place_of_key request.now.key_id.0 (keys_of self.now)) request.now)
            (place_of_key request.now.key_id.0 (keys_of self.now)) }
        ensures bound { IfOk result (λ place. place < most_configurations) }
    {
        let place = self.find(request.key_id).ok_or(Reason::NoSuchKey)?;
        self.list[place].refusal(cap, request)?;
        Ok(place)
    }

    // The place of the key with an id, or why it cannot be retired.
    pub fn retirable(&self, id: KeyId) -> Result<usize, Refusal>
        ensures value { result ≡ result_by (retire_refusal (key_with id.0 (keys_of self.now)))
            (place_of_key id.0 (keys_of self.now)) }
        ensures bound { IfOk result (λ place. place < most_configurations) }
    {
        let place = self.find(id).ok_or(Reason::NoSuchKey)?;
        self.list[place].retire_refusal()?;
        Ok(place)
    }

    // The number of keys.
    pub fn number(&self) -> usize
        ensures value { result ≡ length (keys_of self.now) }
        ensures bound { result ≤ most_configurations }
    {
        MOST_CONFIGURATIONS.min(self.count as usize)
    }

    // The keys as report shows them.
    pub fn report(&self) -> [KeyReport; MOST_CONFIGURATIONS]
        ensures { result ≡ stored_reports (keys_of self.now) }
    {
        let mut reports = [KeyReport::blank(); MOST_CONFIGURATIONS];
        let keys = &self.list[..self.number()];
        for (at, key) in keys.iter().enumerate() {
            reports[at] = key.report();
        }
        reports
    }
}

// The keys of a list that was checked, which is why it may ask for a good one.
fn read_good(list: &[u8]) -> Keys
    requires { IsGood list.now }
    ensures { result ≡ keys_from (parse list.now) }
{
    let mut keys = Keys::none();
    let mut count = 0;
    let mut at = first_read(list, 0);
    while let Some(place) = place_in(list, at) {
        keys.list[count] = key_at(list, at, &place);
        count += 1;
        at = place.next;
    }
    keys.count = count as u8;
    keys
}

// The key of the configuration at an offset, whose fields were read. It keeps the layout's rules, as all that are read do.
fn key_at(list: &[u8], at: usize, place: &Place) -> KeyState
    requires { (layout_holds list.now at ≡ true) × (place.now ≡ place_of list.now at) }
    ensures { result ≡ stored_key (configuration_at list.now at) }
{
    let count = (word_at(list, place.key.end) as usize) / 4;
    KeyState {
        count: 0,
        kem: place.kem,
        id: KeyId(place.key_id),
        retired: 0,
        pair_count: count as u8,
        pairs: pairs_at(list, place.key.end + 2, count),
    }
}

// So many pairs from an offset, one after the other. They lie in the list, as those of a good configuration do.
fn pairs_at(list: &[u8], from: usize, count: usize) -> [Pair; MOST_PAIRS]
    requires inside { from + count * 4 ≤ length list.now }
    requires few { count ≤ most_pairs }
    ensures { result ≡ padded most_pairs no_pair (pairs_at count list.now from) }
{
    let mut pairs = [Pair { kdf: 0, aead: 0 }; MOST_PAIRS];
    for done in 0..count {
        let at = from + done * 4;
        pairs[done] = Pair {
            kdf: word_at(list, at),
            aead: word_at(list, at + 2),
        };
    }
    pairs
}
