//! Reading a source as trees, on threads of its own.
use crate::measured::{Measured, micros_since};
use ex_parser::{ParseError, parse};
use std::alloc::Global;
use std::sync::Wait;
use std::thread::Threads;
use std::time::{Clock, Instant};
use std::{io, thread};

/// How the reading of a source ended, with the nodes of its trees or the byte at which it was refused.
#[derive(Clone, Copy)]
pub enum Reading {
    Read(Measured),
    Refused(Measured),
}

/// What a source was answered.
#[derive(Clone, Copy)]
enum Answer {
    NoneYet,
    Nodes(u64),
    RefusedAt(u64),
    NoMemory,
}

/// Reads a source and drops what was read.
fn answer_of(alloc: Global, source: &str) -> Answer {
    match parse(alloc, source) {
        Ok(tree) => Answer::Nodes(tree.nodes.len() as u64),
        Err(
            ParseError::Lex { at, .. } | ParseError::DepthLimit { at } | ParseError::Syntax { at },
        ) => { Answer::RefusedAt(at) }
        Err(ParseError::OutOfMemory) => Answer::NoMemory,
    }
}

/// Reads a source on two threads side by side, each on its own stack.
pub fn measure<R: Threads + Wait + Sync + Clock>(
    rt: &R,
    alloc: Global,
    source: &str,
) -> io::Result<Reading> {
    let mut answers = [Answer::NoneYet, Answer::NoneYet];
    let begin = Instant::now(rt)?;
    thread::for_each_mut(
        rt,
        answers.as_mut_slice(),
        2,
        &|_, answer: &mut Answer| *answer = answer_of(alloc, source),
    );
    let micros = micros_since(rt, begin)?;
    match answers[0] {
        Answer::Nodes(count) => Ok(Reading::Read(Measured { count, micros })),
        Answer::RefusedAt(count) => Ok(Reading::Refused(Measured { count, micros })),
        Answer::NoneYet | Answer::NoMemory => Err(io::Error::from(io::ErrorKind::OutOfMemory)),
    }
}
