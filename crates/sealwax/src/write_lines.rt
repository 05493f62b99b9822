// The line `write`: its configurations, gathered as the list writer takes them.
use crate::client_lines::{code_of, id_of};
use crate::codes::Codes;
use crate::hex::Hex;
use crate::lines::{CONFIGURATION, Line, Name};
use crate::output::Output;
use crate::parts::{FILL, Span, front_of, room_of};
use crate::words::Words;
use results::outcome::NumberResult;

// The most room that `write` lends, and the most configurations of a line.
const MOST_LIST_ROOM: usize = 4096;

const MOST_GIVEN: usize = 17;

// The configurations so far. Their keys stand in the line itself, from where its configurations start up to `keys_end`: a key is moved down there, since
// an id and a KEM stand in front of it.
#[derive(Drop)]
struct Given {
    count: usize,
    ids: [u8; MOST_GIVEN],
    kems: [u16; MOST_GIVEN],
    key_lengths: [usize; MOST_GIVEN],
    keys_end: usize,
    pair_counts: [usize; MOST_GIVEN],
    pairs: Codes,
}

impl Given {
    // With the configurations of the words that are left, as many as a line may have; whether each is one, and no word is left behind them.
    fn take_all(&mut self, words: &mut Words<'_>) -> bool {
        for _ in 0..MOST_GIVEN {
            if words.are_taken() {
                return true;
            }
            let Some(line) = Line::of(Name::Write, CONFIGURATION, words) else {
                return false;
            };
            self.add(line, words.line);
        }
        words.are_taken()
    }

    // With the configuration that words of a line say.
    fn add(&mut self, said: Line, line: &mut [u8]) {
        if MOST_GIVEN <= self.count {
            return;
        }
        let pairs = self.pairs.put(said.parts[1].of(line));
        let key = said.parts[0];
        self.ids[self.count] = id_of(said.numbers[0]);
        self.kems[self.count] = code_of(said.numbers[1]);
        self.key_lengths[self.count] = key.length();
        self.pair_counts[self.count] = pairs.length();
        self.count += 1;
        self.keys_end = move_down(line, key, self.keys_end);
    }

    // Writes their list into a buffer; their keys stand in a line from a place on.
    fn write(&self, line: &[u8], start: usize, list: &mut [u8]) -> NumberResult {
        let pairs = Span {
            start: 0,
            end: self.pairs.count,
        };
        listwriter::write(
            front_of(&self.ids, self.count),
            front_of(&self.kems, self.count),
            front_of(&self.key_lengths, self.count),
            Span {
                start,
                end: self.keys_end,
            }
            .of(line),
            front_of(&self.pair_counts, self.count),
            self.pairs.part(pairs),
            list,
        )
        .into()
    }
}

// Moves a part of a line down to a place, and answers where it ends there.
fn move_down(line: &mut [u8], part: Span, to: usize) -> usize {
    if to <= part.start && part.start <= part.end && part.end <= line.len() {
        line.copy_within(part.start..part.end, to);
    }
    to.saturating_add(part.length())
}

// Answers a line of `write`, of a number.
pub(crate) fn write(said: Line, number: u64, line: &mut [u8], out: &mut Output) {
    let mut given = Given {
        count: 0,
        ids: [0; MOST_GIVEN],
        kems: [0; MOST_GIVEN],
        key_lengths: [0; MOST_GIVEN],
        keys_end: said.next,
        pair_counts: [0; MOST_GIVEN],
        pairs: Codes::new(),
    };
    let mut words = Words {
        line,
        at: said.next,
    };
    let is_whole = given.take_all(&mut words);
    if is_whole {
        put_written(&given, words.line, said, out);
    } else {
        out.print(format_args!("bad line {number}"));
    }
}

fn put_written(given: &Given, line: &[u8], said: Line, out: &mut Output) {
    let room = room_of(said.numbers[0], MOST_LIST_ROOM);
    let mut list = [FILL; MOST_LIST_ROOM];
    let result = given.write(line, said.next, &mut list[..room]);
    out.answer(
        result.outcome,
        format_args!("written length={}", result.number),
    );
    out.print(format_args!(" buffer={}", Hex(front_of(&list, room))));
}
