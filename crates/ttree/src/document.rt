//! A document that was read as a whole, and whose calls are made part by part.

use std::alloc::{AllocError, Global};
use tracing_tree::call::Call;
use tracing_tree::calls::Calls;
use tracing_tree::lines::LineCause;
use ttree_adapters::Mapping;
use ttree_otlp::OtlpTree;
use ttree_source::run::make;

// The calls of a document.
pub trait Document: Drop {
    // Returns the next calls, or `None` after the last ones.
    fn next_calls(&mut self) -> Result<Option<Vec<Call>>, AllocError>;
}

impl Document for OtlpTree {
    fn next_calls(&mut self) -> Result<Option<Vec<Call>>, AllocError> {
        self.next_calls()
    }
}

// All calls of a document at once.
#[derive(Drop)]
pub struct Whole {
    calls: Option<Vec<Call>>,
}

impl From<Vec<Call>> for Whole {
    fn from(calls: Vec<Call>) -> Whole {
        Whole { calls: Some(calls) }
    }
}

impl Document for Whole {
    fn next_calls(&mut self) -> Result<Option<Vec<Call>>, AllocError> {
        Ok(self.calls.take())
    }
}

// What was read of a document.
#[derive(Drop)]
pub struct DocumentRead<D> {
    // What will be drawn, or what ended the reading.
    pub document: Result<D, LineCause>,

    // How many of its parts were skipped.
    pub unknown: u64,
}

// Makes what a mapping makes of a document's calls.
pub fn make_document<D: Document, M: Mapping, C: Calls>(
    alloc: Global,
    document: D,
    mapping: &mut M,
    receiver: &mut C,
) -> Result<(), LineCause> {
    let mut document = document;
    for _part in 0..u64::MAX {
        match next_mapped(alloc, &mut document, mapping) {
            Ok(Some(calls)) => make_part(calls, receiver)?,
            Ok(None) => break,
            Err(AllocError) => return Err(LineCause::Memory),
        }
    }
    Ok(())
}

fn next_mapped<D: Document, M: Mapping>(
    alloc: Global,
    document: &mut D,
    mapping: &mut M,
) -> Result<Option<Vec<Call>>, AllocError> {
    match document.next_calls()? {
        Some(calls) => Ok(Some(mapping.map(alloc, None, calls)?)),
        None => Ok(None),
    }
}

fn make_part<C: Calls>(calls: Vec<Call>, receiver: &mut C) -> Result<(), LineCause> {
    match make(calls, receiver) {
        Ok(()) => Ok(()),
        Err(refusal) => Err(LineCause::Refused(refusal)),
    }
}
