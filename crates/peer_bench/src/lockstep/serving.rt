//! A server for the client's rounds.
use super::client::{Asking, Counting, Step};
use super::rounds::{Rounds, Server};
use crate::work::written;
use lsp_frames::encode;
use method_steps::Table;
use program_edge::Failure;
use rpc_peer::{Limits, OpenGate, serve, serve_by, serve_lines};
use std::alloc::{AllocError, Global};
use std::io::Write;
use std::sync::atomic::AtomicU64;
use std::sync::{Arc, Wait};
use std::thread::Threads;

const METHODS: &[u8] = br#"version = 2

[[method]]
name = "add"
[[method.step]]
kind = "add"
to = "sum"
left = "$params/0"
right = "$params/1"
[[method.step]]
kind = "answer"
value = "$sum"
"#;

const REQUEST: &[u8] = br#"{"jsonrpc":"2.0","method":"add","params":[2,3],"id":1}"#;

const ANSWER: &[u8] = br#"{"id":1,"jsonrpc":"2.0","result":5}"#;

/// Goes all rounds, and tells how many requests were answered.
pub fn go_round<R, W>(rt: &R, rounds: Rounds, output: &mut W) -> Result<(), Failure>
where
    R: Threads + Wait + Sync + AllocGlobal,
    W: Write,
{
    let answered = answered(rt, rounds)?;
    written(writeln!(output, "{answered} requests answered"))?;
    written(output.flush())
}

/// How many requests are answered.
fn answered<R>(rt: &R, rounds: Rounds) -> Result<u64, Failure>
where
    R: Threads + Wait + Sync + AllocGlobal,
{
    let request = written_for(rt.alloc(), rounds.server, REQUEST)?;
    let answer = written_for(rt.alloc(), rounds.server, ANSWER)?.len() as u64;
    let step = Step {
        request: request.as_slice(),
        answer,
        ahead: answer.saturating_mul(u64::from(rounds.ahead)),
    };
    match Table::read(rt.alloc(), METHODS) {
        Ok(table) => answered_by(rt, &table, rounds, step),
        Err(_) => Err(Failure::Memory),
    }
}

/// A content as this server reads and writes it.
fn written_for(alloc: Global, server: Server, content: &[u8]) -> Result<Vec<u8>, AllocError> {
    match server {
        Server::ServeBy | Server::Serve => encode(alloc, content),
        Server::ServeLines => {
            let mut line = content.to_vec(alloc)?;
            line.push(b'\n')?;
            Ok(line)
        }
    }
}

/// How many are by a server with this table.
fn answered_by<R>(rt: &R, table: &Table, rounds: Rounds, step: Step<'_>) -> Result<u64, Failure>
where
    R: Threads + Wait + Sync + AllocGlobal,
{
    let alloc = rt.alloc();
    let taken = AtomicU64::new(0);
    let source = Asking {
        step,
        left: rounds.count,
        wanted: 0,
        taken: &taken,
    };
    let sink = Counting { taken: &taken };
    let limits = Limits::standard();
    let workers = rounds.crew.workers;
    let served = match rounds.server {
        Server::ServeBy => {
            let gate = Arc::new(alloc, OpenGate)?;
            serve_by(rt, alloc, table, limits, rounds.crew, gate, source, sink)
        }
        Server::Serve => serve(rt, alloc, table, limits, workers, source, sink),
        Server::ServeLines => serve_lines(rt, alloc, table, limits, workers, source, sink),
    };
    match served {
        Ok((report, _)) => Ok(report.answers),
        Err(_) => Err(Failure::Memory),
    }
}
