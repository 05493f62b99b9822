// The lines that call the gateway.
ghost use Rattle.std.specs.Prelude.{◌≡◌};
ghost use Rattle.exchange.specs.Steps.{step};
ghost use Rattle.gateway.specs.declared.table.Engine.{Engine};
ghost use Rattle.gateway.specs.Gateway.{fresh_gateway, gateway_does};
ghost use Rattle.gateway.specs.Calls.{admit, retire, on_ticket};
ghost use Rattle.sealwax.specs.Calls.{filled, gateway_after_line};

use crate::hex::Hex;
use crate::lines::{Line, Name};
use crate::output::Output;
use crate::parts::{FILL, MOST_ROOM, front_of, room_of};
use exchange::{Move, Ticket};
use gateway::Gateway;
use gateway::table::Engine;
use keylist::KeyId;
use results::gateway_calls::{AdmitResult, ReportResult};
use results::outcome::{NumberResult, Outcome};

// A call, but for its bytes, which stand beside it: setup's list, admit's request, respond's enc and nonce.
#[derive(Clone, Copy)]
pub(crate) enum Call {
    // The cap.
    Setup(u64),
    // The room.
    Admit(u64),
    // The ticket, what is asked, the room.
    Step(u64, Move, u64),
    // The key id.
    Retire(u8),
    Report,
}

// The call of a line, where it is one on the gateway.
pub(crate) fn call_of(line: Line) -> Option<Call> {
    let [first, second, third, ..] = line.numbers;
    match line.name {
        Name::Setup => Some(Call::Setup(first)),
        Name::Admit => Some(Call::Admit(first)),
        Name::Open => Some(Call::Step(first, opening(line.is_first, second), 0)),
        Name::Respond => Some(Call::Step(first, Move::Respond(second), third)),
        Name::Abandon => Some(Call::Step(first, Move::Abandon, 0)),
        Name::Retire => Some(Call::Retire((first % 256) as u8)),
        Name::Report => Some(Call::Report),
        _ => None,
    }
}

// How opening went, with a length where it went well.
fn opening(is_ok: bool, length: u64) -> Move {
    if is_ok {
        Move::Open(length)
    } else {
        Move::Fail
    }
}

// The engine after a line.
pub(crate) fn engine_after(engine: Engine, line: Line) -> Engine {
    if line.name != Name::Engine {
        return engine;
    }
    if line.is_first {
        Engine::Fast
    } else {
        Engine::Plain
    }
}

// Makes a call by an engine, and puts its answer.
pub(crate) fn answer(
    gateway: &mut Gateway,
    engine: Engine,
    call: Call,
    bytes: &[u8],
    nonce: &[u8],
    out: &mut Output,
)
    ensures { gateway.new ≡ gateway_after_line engine gateway.old call bytes.now nonce.now }
{
    match call {
        Call::Setup(cap) => setup(gateway, bytes, cap, out),
        Call::Admit(room) => admit(gateway, engine, bytes, room, out),
        Call::Step(ticket, asks, room) => step(
            gateway, engine, ticket, asks, bytes, nonce, room, out,
        ),
        Call::Retire(key_id) => retire(gateway, key_id, out),
        Call::Report => report(gateway.report().into(), out),
    }
}

fn setup(gateway: &mut Gateway, list: &[u8], cap: u64, out: &mut Output)
    ensures { gateway.new ≡ fresh_gateway list.now cap }
{
    let fresh = Gateway::setup(list, cap);
    *gateway = fresh.gateway;
    let result = NumberResult::from(fresh.answer);
    out.answer(result.outcome, format_args!("ready keys={}", result.number));
}

#[tactic(auto, using(crate::proofs::Lending::part_filled))]
fn admit(gateway: &mut Gateway, engine: Engine, request: &[u8], room: u64, out: &mut Output)
    ensures { gateway.new ≡ (gateway_does engine gateway.old (admit request.now (filled room))).state }
{
    let room = room_of(room, MOST_ROOM);
    let mut info = [FILL; MOST_ROOM];
    let answer = gateway.admit(engine, request, &mut info[..room]);
    admitted(answer.into(), out);
    out.print(format_args!(" buffer={}", Hex(front_of(&info, room))));
}

fn admitted(admission: AdmitResult, out: &mut Output) {
    out.answer(
        admission.outcome,
        format_args!(
            "admitted ticket={} key={} kdf={:04x} aead={:04x} enc={}..{} ciphertext={}..{}",
            admission.ticket,
            admission.key_id,
            admission.kdf,
            admission.aead,
            admission.enc_start,
            admission.enc_end,
            admission.ciphertext_start,
            admission.ciphertext_end,
        ),
    );
}

#[tactic(auto, using(crate::proofs::Lending::part_filled))]
fn step(
    gateway: &mut Gateway,
    engine: Engine,
    ticket: u64,
    asks: Move,
    enc: &[u8],
    nonce: &[u8],
    room: u64,
    out: &mut Output,
)
    ensures { gateway.new ≡ (gateway_does engine gateway.old
        (on_ticket ticket (step asks enc.now nonce.now (filled room)))).state }
{
    let room = room_of(room, MOST_ROOM);
    let mut salt = [FILL; MOST_ROOM];
    let answer = gateway.step(engine, Ticket(ticket), asks, enc, nonce, &mut salt[..room]);
    stepped(asks, answer.into(), front_of(&salt, room), out);
}

fn stepped(asks: Move, sent: NumberResult, salt: &[u8], out: &mut Output) {
    let outcome = sent.outcome;
    let status = outcome.status;
    match asks {
        Move::Open(_) => out.answer(outcome, "opened"),
        Move::Fail => out.answer(outcome, format_args!("failed status={status}")),
        Move::Respond(_) => {
            out.answer(
                outcome,
                format_args!("sealed status={status} length={}", sent.number),
            );
            out.print(format_args!(" buffer={}", Hex(salt)));
        }
        Move::Abandon => out.answer(outcome, "abandoned"),
    }
}

fn retire(gateway: &mut Gateway, key_id: u8, out: &mut Output)
    ensures { (engine : Engine) → gateway.new ≡ (gateway_does engine gateway.old (retire key_id)).state }
{
    out.answer(Outcome::from(gateway.retire(KeyId(key_id))), "retired");
}

fn report(report: ReportResult, out: &mut Output) {
    out.print(format_args!(
        "report last={} pending={} keys=",
        report.last_ticket, report.pending
    ));
    let mut separator = "";
    for key in front_of(&report.keys, report.key_count) {
        out.print(format_args!(
            "{separator}{}:{}:{}",
            key.id.0,
            key.count,
            if key.retired { "retired" } else { "live" },
        ));
        separator = ",";
    }
    if report.key_count == 0 {
        out.print("-");
    }
}
