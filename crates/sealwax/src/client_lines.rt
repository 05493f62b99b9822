// The lines that need no gateway: calls on key lists and on the client's side, and the choice of the engine; those on messages are in `message_lines`.
use crate::codes::Codes;
use crate::hex::Hex;
use crate::lines::{Line, Name};
use crate::output::Output;
use crate::parts::{FILL, MOST_ROOM, Span, front_of, room_of};
use crate::{message_lines, write_lines};
use algorithms::{Aead, Kdf, Kem};
use client::{choose, head, split};
use keylist::{KeyId, check, key};
use results::client_calls::{ChooseResult, exporter, split_result};
use results::outcome::{NumberResult, TwoNumbersResult};

pub(crate) fn id_of(number: u64) -> u8 {
    (number % 256) as u8
}

pub(crate) fn code_of(number: u64) -> u16 {
    (number % 65536) as u16
}

// Makes the call of a line that leaves the gateway alone, of a number, and puts its answer.
pub(crate) fn answer(line: Line, number: u64, bytes: &mut [u8], out: &mut Output) {
    match line.name {
        Name::Engine => out.print(if line.is_first {
            "engine fast"
        } else {
            "engine plain"
        }),
        Name::Check => check(line, bytes, out),
        Name::Key => key(line, bytes, out),
        Name::Choose => choose(line, bytes, out),
        Name::Head => head(line, bytes, out),
        Name::Split => split(line, bytes, out),
        Name::Exporter => put_exporter(line, out),
        Name::Request => message_lines::request(line, bytes, out),
        _ => write_lines::write(line, number, bytes, out),
    }
}

fn check(line: Line, bytes: &[u8], out: &mut Output) {
    let result = TwoNumbersResult::from(check::check(line.parts[0].of(bytes)));
    out.answer(
        result.outcome,
        format_args!(
            "good configurations={} skipped={}",
            result.first, result.second
        ),
    );
}

fn key(line: Line, bytes: &[u8], out: &mut Output) {
    let list = line.parts[0].of(bytes);
    let result = TwoNumbersResult::from(key::find(list, KeyId(id_of(line.numbers[0]))));
    let found = Span {
        start: result.first,
        end: result.second,
    };
    out.answer(result.outcome, format_args!("key {}", Hex(found.of(list))));
}

fn choose(line: Line, bytes: &[u8], out: &mut Output) {
    let mut codes = Codes::new();
    let kems = codes.put(line.parts[1].of(bytes));
    let pairs = codes.put(line.parts[2].of(bytes));
    let list = line.parts[0].of(bytes);
    let choice = choose::choose(list, codes.part(kems), codes.part(pairs));
    chosen(choice.into(), out);
}

fn chosen(choice: ChooseResult, out: &mut Output) {
    out.answer(
        choice.outcome,
        format_args!(
            "chosen key={} kem={:04x} kdf={:04x} aead={:04x} public={}..{}",
            choice.key_id, choice.kem, choice.kdf, choice.aead, choice.key_start, choice.key_end,
        ),
    );
}

fn head(line: Line, bytes: &[u8], out: &mut Output) {
    let room = room_of(line.numbers[4], MOST_ROOM);
    let info_room = room_of(line.numbers[5], MOST_ROOM);
    let mut request = [FILL; MOST_ROOM];
    let mut info = [FILL; MOST_ROOM];
    let result = write_head(line, bytes, &mut request[..room], &mut info[..info_room]);
    out.answer(
        result.outcome,
        format_args!("head length={}", result.number),
    );
    out.print(format_args!(
        " buffer={} info={}",
        Hex(front_of(&request, room)),
        Hex(front_of(&info, info_room)),
    ));
}

fn write_head(line: Line, bytes: &[u8], request: &mut [u8], info: &mut [u8]) -> NumberResult {
    head::write(
        KeyId(id_of(line.numbers[0])),
        Kem(code_of(line.numbers[1])),
        Kdf(code_of(line.numbers[2])),
        Aead(code_of(line.numbers[3])),
        line.parts[0].of(bytes),
        request,
        info,
    )
    .into()
}

fn split(line: Line, bytes: &[u8], out: &mut Output) {
    let response = line.parts[0].of(bytes);
    let result = split_result(
        split::check(Aead(code_of(line.numbers[0])), response),
        response.len(),
    );
    let middle = result.first;
    let ciphertext = Span {
        start: middle,
        end: response.len(),
    };
    out.answer(
        result.outcome,
        format_args!(
            "split nonce={} ciphertext={}",
            Hex(front_of(response, middle)),
            Hex(ciphertext.of(response)),
        ),
    );
}

fn put_exporter(line: Line, out: &mut Output) {
    let room = room_of(line.numbers[1], MOST_ROOM);
    let mut context = [FILL; MOST_ROOM];
    let result = TwoNumbersResult::from(exporter(code_of(line.numbers[0]), &mut context[..room]));
    out.answer(
        result.outcome,
        format_args!("exporter secret={}", result.second),
    );
    out.print(format_args!(" buffer={}", Hex(front_of(&context, room))));
}
