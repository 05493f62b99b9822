// Key lists: the check, the place of a key, and the list writer.
ghost use Rattle.std.specs.Prelude.{◌≡◌, length};
ghost use Rattle.keylist.specs.Layout.{parse};
ghost use Rattle.keylist.specs.Answers.{checked, key_place_in};
ghost use Rattle.listwriter.specs.Writer.{fields, encode, written_in, written_to};
ghost use Rattle.results.specs.Outcome.{check_result, span_result, number_result};

use keylist::check::check;
use keylist::{KeyId, key};
use results::outcome::{NumberResult, TwoNumbersResult};

// Whether a key list is good, with how many of its configurations were read and how many skipped: 18 to 22 with their place where it is not.
#[unsafe(no_mangle)]
pub extern "C" fn sealwax_check(list: &[u8]) -> TwoNumbersResult
    ensures { result ≡ check_result (checked list.now) }
{
    check(list).into()
}

// Where the public key of a key id starts and ends in the list: 18 to 22 with their place, 4.
#[unsafe(no_mangle)]
pub extern "C" fn sealwax_key(list: &[u8], key_id: u8) -> TwoNumbersResult
    ensures { result ≡ span_result (key_place_in key_id (parse list.now)) }
{
    key::find(list, KeyId(key_id)).into()
}

// Writes configurations given as fields at the front of a buffer, and answers the length: 18, 22, 3, 19, 20, 21 with the place of the field
// in the list that would be written, 14.
#[unsafe(no_mangle)]
pub extern "C" fn sealwax_write(
    key_ids: &[u8],
    kems: &[u16],
    key_lengths: &[usize],
    keys: &[u8],
    pair_counts: &[usize],
    pairs: &[u16],
    buffer: &mut [u8],
) -> NumberResult
    ensures result { result ≡ number_result (written_in (length buffer.old) (encode key_ids.now
        (fields kems.now key_lengths.now keys.now pair_counts.now pairs.now))) }
    ensures buffer { buffer.new ≡ written_to buffer.old (encode key_ids.now
        (fields kems.now key_lengths.now keys.now pair_counts.now pairs.now)) }
{
    listwriter::write(key_ids, kems, key_lengths, keys, pair_counts, pairs, buffer).into()
}
