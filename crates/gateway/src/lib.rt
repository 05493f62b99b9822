// The gateway (01, "What the box does"): setup and the six calls, which change it in place; a refusal changes nothing. Every entry has an answer
// for every gateway and every argument.
#![tactic(auto)]

ghost use Rattle.std.specs.Prelude.{◌≡◌, ◌<◌, IfOk};
ghost use Rattle.wire.specs.Refusals.{result_by};
ghost use Rattle.exchange.specs.Steps.{step};
ghost use Rattle.keylist.specs.Answers.{skipped_in};
ghost use Rattle.keys.specs.Helpers.{keys_of_parsed};
ghost use Rattle.gateway.specs.declared.table.Engine.{Engine};
ghost use Rattle.gateway.specs.Registry.{setup, setup_answer, table_size};
ghost use Rattle.gateway.specs.Engines.{free_place};
ghost use Rattle.gateway.specs.View.{is_full};
ghost use Rattle.gateway.specs.Gateway.{empty_gateway, fresh_gateway, gateway_does};
ghost use Rattle.gateway.specs.Helpers.{room_refusal};
ghost use Rattle.gateway.specs.Calls.{admit, retire, on_ticket, reporting, of_admit, of_retire, of_step, of_report};

use crate::admission::{Admission, AdmitRefusal, next_ticket};
use crate::table::{Engine, TABLE_SIZE, count_pending, find};
use exchange::{Exchange, Move, StepAnswer, Ticket};
use keylist::KeyId;
use keylist::check::MOST_CONFIGURATIONS;
use keys::{KeyReport, Keys, KeysRead};
use wire::bytes::overwrite;
use wire::refusal::{Reason, Refusal};
use wire::texts;

pub mod admission;
pub mod table;

// The uses of a key that setup may allow are 1 up to this number.
pub const MOST_USES: u64 = 1000000000;

// The gateway's state. A host may hold it in its own memory, and must not write it.
#[repr(C)]
#[derive(Clone, Copy)]
pub struct Gateway {
    pub last_ticket: Ticket,
    pub cap: u32,
    pub keys: Keys,
    pub table: [Exchange; TABLE_SIZE],
}

// Last ticket, number pending, and the keys in list order, first in `keys`.
#[derive(Clone, Copy)]
pub struct Report {
    pub last_ticket: Ticket,
    pub pending: usize,
    pub key_count: usize,
    pub keys: [KeyReport; MOST_CONFIGURATIONS],
}

// The gateway after setup, with the number of keys or the refusal.
#[derive(Clone, Copy)]
pub struct AfterSetup {
    pub gateway: Gateway,
    pub answer: Result<usize, Refusal>,
}

impl Gateway {
    // A fresh gateway of a key list and a cap, or the refusal and a gateway without keys, cap 1.
    pub fn setup(list: &[u8], cap: u64) -> AfterSetup
        ensures gateway { result.gateway ≡ fresh_gateway list.now cap }
        ensures answer { result.answer ≡ setup_answer (setup list.now cap) }
    {
        match read(list, cap) {
            Ok(read) => AfterSetup {
                gateway: empty(cap as u32, read.keys),
                answer: Ok(read.counts.read),
            },
            Err(refusal) => AfterSetup {
                gateway: empty(1, Keys::none()),
                answer: Err(refusal),
            },
        }
    }

    // Admit, by an engine: counts the use, gives the next ticket and writes info at the front of its buffer.
    pub fn admit(
        &mut self,
        engine: Engine,
        request: &[u8],
        info: &mut [u8],
    ) -> Result<Admission, AdmitRefusal>
        ensures gateway { self.new ≡ (gateway_does engine self.old (admit request.now info.old)).state }
        ensures answer { of_admit result ≡ (gateway_does engine self.old (admit request.now info.old)).answer }
        ensures buffer { info.new ≡ (gateway_does engine self.old (admit request.now info.old)).buffer }
    {
        let fields = request::read(request)?;
        let key = self.keys.admits(self.cap, &fields)?;
        let ticket = next_ticket(self.last_ticket);
        let place = self.place_for(engine, ticket, info.len())?;
        overwrite(info, 0, &request::info(request));
        self.last_ticket = ticket;
        self.keys.list[key].use_once();
        self.table[place] = Exchange::asked(ticket, fields);
        Ok(Admission::of(ticket, fields, request.len()))
    }

    // A call on a ticket, by an engine, with the bytes that it brings, as respond does, and none where the others bring none: enc and nonce are written
    // at the front of the salt buffer.
    pub fn step(
        &mut self,
        engine: Engine,
        ticket: Ticket,
        kind: Move,
        enc: &[u8],
        nonce: &[u8],
        salt: &mut [u8],
    ) -> Result<StepAnswer, Refusal>
        ensures gateway { self.new ≡ (gateway_does engine self.old
            (on_ticket ticket.0 (step kind enc.now nonce.now salt.old))).state }
        ensures answer { of_step result ≡ (gateway_does engine self.old
            (on_ticket ticket.0 (step kind enc.now nonce.now salt.old))).answer }
        ensures buffer { salt.new ≡ (gateway_does engine self.old
            (on_ticket ticket.0 (step kind enc.now nonce.now salt.old))).buffer }
    {
        let place = find(&self.table, engine, ticket.0, ticket.0);
        if place == TABLE_SIZE {
            return Err(Refusal::from(Reason::NotPending));
        }
        self.table[place].step(ticket, kind, enc, nonce, salt)
    }

    // Retire: later admissions refuse the key; pending exchanges go on. The engines do not differ in it.
    pub fn retire(&mut self, id: KeyId) -> Result<(), Refusal>
        ensures gateway { (engine : Engine) → self.new ≡ (gateway_does engine self.old (retire id.0)).state }
        ensures answer { (engine : Engine) → of_retire result ≡ (gateway_does engine self.old (retire id.0)).answer }
    {
        let place = self.keys.retirable(id)?;
        self.keys.list[place].retire();
        Ok(())
    }

    // Report: last ticket, number pending, and each key's count and retirement. The gateway is as it was.
    pub fn report(&self) -> Report
        ensures gateway { (engine : Engine) → self.now ≡ (gateway_does engine self.now reporting).state }
        ensures answer { (engine : Engine) → of_report result ≡ (gateway_does engine self.now reporting).answer }
    {
        Report {
            last_ticket: self.last_ticket,
            pending: count_pending(&self.table),
            key_count: self.keys.number(),
            keys: self.keys.report(),
        }
    }

    // A free place for an exchange, where there is one and info has room.
    fn place_for(&self, engine: Engine, ticket: Ticket, room: usize) -> Result<usize, Refusal>
        ensures value { result ≡ result_by (room_refusal (is_full self.now.table) room)
            (free_place engine ticket.0 self.now.table) }
        ensures bound { IfOk result (λ place. place < table_size) }
    {
        let place = find(&self.table, engine, 0, ticket.0);
        if place == TABLE_SIZE {
            return Err(Refusal::from(Reason::TableFull));
        }
        if room < texts::INFO_LENGTH {
            return Err(Refusal::from(Reason::NoRoom));
        }
        Ok(place)
    }
}

// The keys of a list, or what is wrong with it or with the cap.
fn read(list: &[u8], cap: u64) -> Result<KeysRead, Refusal>
    ensures { result ≡ keys_of_parsed (setup list.now cap) (skipped_in list.now) }
{
    let read = Keys::read(list)?;
    if cap < 1 || MOST_USES < cap {
        return Err(Refusal::from(Reason::CapOutOfRange));
    }
    Ok(read)
}

// A gateway of these keys, with all places free.
fn empty(cap: u32, keys: Keys) -> Gateway
    ensures { result ≡ empty_gateway cap keys }
{
    Gateway {
        last_ticket: Ticket(0),
        cap,
        keys,
        table: [Exchange::free(); TABLE_SIZE],
    }
}
