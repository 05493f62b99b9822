// Setup and the six calls, by the fast engine, on a gateway in the host's memory.
ghost use Rattle.std.specs.Prelude.{◌≡◌, not, [], eqb};
ghost use Rattle.exchange.specs.Steps.{bare, open_result, respond, abandon};
ghost use Rattle.gateway.specs.declared.table.Engine.{Engine};
ghost use Rattle.gateway.specs.Registry.{setup, setup_answer};
ghost use Rattle.gateway.specs.Gateway.{fresh_gateway};
ghost use Rattle.gateway.specs.Calls.{admit, retire, on_ticket, reporting, of_step};
ghost use Rattle.results.specs.Calls.{Does, outcome_of, admit_result, step_result, report_result};
ghost use Rattle.results.specs.Outcome.{number_result};

use exchange::{Move, StepAnswer, Ticket};
use gateway::Gateway;
use gateway::table::Engine;
use keylist::KeyId;
use results::gateway_calls::{AdmitResult, ReportResult};
use results::outcome::{NumberResult, Outcome};
use wire::refusal::Refusal;

// Setup: a fresh gateway of a key list and a cap, or on refusal a gateway without keys, cap 1.
#[unsafe(no_mangle)]
pub extern "C" fn sealwax_setup(gateway: &mut Gateway, list: &[u8], cap: u64) -> NumberResult
    ensures { (gateway.new ≡ fresh_gateway list.now cap)
        × (result ≡ number_result (setup_answer (setup list.now cap))) }
{
    let fresh = Gateway::setup(list, cap);
    *gateway = fresh.gateway;
    fresh.answer.into()
}

// Admit: counts the use, gives the next ticket and writes info at the front of its buffer.
#[unsafe(no_mangle)]
pub extern "C" fn sealwax_admit(
    gateway: &mut Gateway,
    request: &[u8],
    info: &mut [u8],
) -> AdmitResult
    ensures { Does Engine.Fast admit_result (admit request.now info.old)
        gateway.old gateway.new result info.new }
{
    gateway.admit(Engine::Fast, request, info).into()
}

// Open result: `success` is 0 where the host could not open the request, and any other number where it opened n bytes.
#[unsafe(no_mangle)]
pub extern "C" fn sealwax_open(
    gateway: &mut Gateway,
    ticket: u64,
    success: u8,
    n: u64,
) -> NumberResult
    ensures { Does Engine.Fast step_result (on_ticket ticket (open_result (not (eqb success 0)) n))
        gateway.old gateway.new result [] }
{
    // Each kind has its own call, which is then inlined: one call of either took twice as long, since it goes through what respond needs.
    if success == 0 {
        bare_step(gateway, ticket, Move::Fail).into()
    } else {
        bare_step(gateway, ticket, Move::Open(n)).into()
    }
}

// Respond: the salt is written at the front of its buffer, and the exchange is closed.
#[unsafe(no_mangle)]
pub extern "C" fn sealwax_respond(
    gateway: &mut Gateway,
    ticket: u64,
    enc: &[u8],
    nonce: &[u8],
    plain: u64,
    salt: &mut [u8],
) -> NumberResult
    ensures { Does Engine.Fast step_result (on_ticket ticket (respond enc.now nonce.now plain salt.old))
        gateway.old gateway.new result salt.new }
{
    let respond = Move::Respond(plain);
    gateway
        .step(Engine::Fast, Ticket(ticket), respond, enc, nonce, salt)
        .into()
}

// Abandon: closed, and no reply is sent.
#[unsafe(no_mangle)]
pub extern "C" fn sealwax_abandon(gateway: &mut Gateway, ticket: u64) -> Outcome
    ensures { Does Engine.Fast outcome_of (on_ticket ticket abandon) gateway.old gateway.new result [] }
{
    NumberResult::from(bare_step(gateway, ticket, Move::Abandon)).outcome
}

// A call on a ticket that brings no bytes.
fn bare_step(gateway: &mut Gateway, ticket: u64, kind: Move) -> Result<StepAnswer, Refusal>
    ensures { Does Engine.Fast (λ answer. answer) (on_ticket ticket (bare kind)) gateway.old gateway.new (of_step result) [] }
{
    gateway.step(Engine::Fast, Ticket(ticket), kind, &[], &[], &mut [])
}

// Retire: later admissions refuse the key; pending exchanges go on.
#[unsafe(no_mangle)]
#[tactic(auto, using(crate::proofs::Buffers::none_retired))]
pub extern "C" fn sealwax_retire(gateway: &mut Gateway, key_id: u8) -> Outcome
    ensures { Does Engine.Fast outcome_of (retire key_id) gateway.old gateway.new result [] }
{
    gateway.retire(KeyId(key_id)).into()
}

// Report: last ticket, number pending, and each key's count and retirement. The gateway is as it was.
#[unsafe(no_mangle)]
#[tactic(auto, using(crate::proofs::Buffers::none_reported))]
pub extern "C" fn sealwax_report(gateway: &Gateway) -> ReportResult
    ensures { Does Engine.Fast report_result reporting gateway.now gateway.now result [] }
{
    gateway.report().into()
}
