// Replays calls: reads them from standard input, one to a line, and writes a line for each to standard output, in constant memory.
#![tactic(auto)]

mod client_lines;
mod codes;
mod failure;
mod gateway_lines;
mod hex;
mod input;
mod lines;
mod message_lines;
mod output;
mod parts;
mod words;
mod write_lines;

use crate::failure::Failure;
use crate::input::Input;
use crate::lines::Line;
use crate::output::Output;
use gateway::Gateway;
use gateway::table::Engine;
use std::io::{Read, Write};
use std::process::ExitCode;

fn main(rt: HostRuntime) -> ExitCode {
    let mut input = Input::new();
    let mut out = Output::new();
    let mut stdin = rt.stdin();
    let mut stdout = rt.stdout();
    match replay(&mut stdin, &mut stdout, &mut input, &mut out) {
        Ok(()) => ExitCode::SUCCESS,
        Err(failure) => {
            let _ = rt.eprintln(failure);
            ExitCode::FAILURE
        }
    }
}

// Answers each line that is whole, and reads more where none is, until the input ends. A proved loop has to end, and nothing says that the input does,
// so it counts its turns up to a number that no run reaches.
fn replay<R: Read, W: Write>(
    reader: &mut R,
    writer: &mut W,
    input: &mut Input,
    out: &mut Output,
) -> Result<(), Failure> {
    let mut gateway = first_gateway();
    let mut engine = Engine::Fast;
    for _ in 0..u64::MAX {
        let Some(end) = input.line_end() else {
            out.flush(writer)?;
            if input.ended {
                break;
            }
            input.more(reader)?;
            continue;
        };
        let start = input.start;
        input.pass(end);
        let number = input.lines;
        let bytes = &mut input.bytes[start..end];
        if is_empty(bytes) {
            continue;
        }
        match Line::read(bytes) {
            None => out.print(format_args!("bad line {number}")),
            Some(line) => {
                engine = gateway_lines::engine_after(engine, line);
                match gateway_lines::call_of(line) {
                    Some(call) => {
                        let first = line.parts[0].of(bytes);
                        let second = line.parts[1].of(bytes);
                        gateway_lines::answer(&mut gateway, engine, call, first, second, out);
                    }
                    None => client_lines::answer(line, number, bytes, out),
                }
            }
        }
        out.end_answer(writer)?;
    }
    Ok(())
}

// The gateway at the start is the one that a refused setup hands back.
fn first_gateway() -> Gateway {
    let refused = Gateway::setup(&[], 0);
    let gateway = refused.gateway;
    gateway
}

// The line is empty or a comment.
fn is_empty(line: &[u8]) -> bool {
    matches!(line, [] | [b'#', ..])
}
