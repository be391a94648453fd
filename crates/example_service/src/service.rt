//! The service's loop, and what it does with a request.

use crate::stock::Stock;
use std::alloc::AllocError;
use tracing_tree_tracer::Value::{Plain, Quoted, Whole};
use tracing_tree_tracer::{Calls, Now, TraceFault, Tracer, within};

// Why a request isn't served.
#[derive(Clone, Copy)]
enum ServiceError {
    NoRequest,
    TooFew,
    Memory,
    Trace(TraceFault),
}

impl From<TraceFault> for ServiceError {
    fn from(fault: TraceFault) -> ServiceError {
        ServiceError::Trace(fault)
    }
}

impl From<AllocError> for ServiceError {
    fn from(_error: AllocError) -> ServiceError {
        ServiceError::Memory
    }
}

impl ServiceError {
    fn text(self) -> &'static str {
        match self {
            ServiceError::NoRequest => "no such request",
            ServiceError::TooFew => "too few in stock",
            ServiceError::Memory => "no memory",
            ServiceError::Trace(_) => "no trace",
        }
    }
}

#[derive(Clone, Copy)]
enum Verb {
    Put,
    Take,
}

#[derive(Clone, Copy)]
struct Request<'a> {
    verb: Verb,
    count: u64,
    item: &'a str,
}

// Parses `put 12 apples` or `take 3 apples`.
fn parse(line: &str) -> Option<Request<'_>> {
    let (verb, rest) = line.split_once(' ')?;
    let (count, item) = rest.split_once(' ')?;
    Some(Request {
        verb: match verb {
            "put" => Verb::Put,
            "take" => Verb::Take,
            _ => return None,
        },
        count: count.parse::<u64>().ok()?,
        item,
    })
}

/// Answers requests, one a line.
pub fn serve<C: Calls, N: Now>(
    tracer: &mut Tracer<C, N>,
    stock: &mut Stock,
    requests: &str,
) -> Result<(), TraceFault> {
    let mut served = 0u64;
    let mut refused = 0u64;
    tracer.open("service", &[])?;
    for line in requests.lines() {
        let is_served = within(tracer, "request", &[("line", Quoted(line))], |tracer| {
            is_served(tracer, stock, line)
        })?;
        if is_served {
            served = served.saturating_add(1);
        } else {
            refused = refused.saturating_add(1);
        }
    }
    let counts = [
        ("served", Whole(i128::from(served))),
        ("refused", Whole(i128::from(refused))),
    ];
    tracer.info("no more requests", &counts)?;
    tracer.close()?;
    Ok(())
}

// Answers a request, and returns whether it was served.
fn is_served<C: Calls, N: Now>(
    tracer: &mut Tracer<C, N>,
    stock: &mut Stock,
    line: &str,
) -> Result<bool, TraceFault> {
    match answer(tracer, stock, line) {
        Ok(()) => {
            tracer.info("served", &[])?;
            Ok(true)
        }
        Err(ServiceError::Trace(fault)) => Err(fault),
        Err(error) => {
            tracer.error("refused", &[("why", Plain(error.text()))])?;
            Ok(false)
        }
    }
}

fn answer<C: Calls, N: Now>(
    tracer: &mut Tracer<C, N>,
    stock: &mut Stock,
    line: &str,
) -> Result<(), ServiceError> {
    let Some(Request { verb, count, item }) = parse(line) else {
        return Err(ServiceError::NoRequest);
    };
    let fields = [("item", Quoted(item)), ("count", Whole(i128::from(count)))];
    match verb {
        Verb::Put => within(
            tracer,
            "put",
            &fields,
            |tracer| put(tracer, stock, item, count),
        ),
        Verb::Take => within(
            tracer,
            "take",
            &fields,
            |tracer| take(tracer, stock, item, count),
        ),
    }
}

fn put<C: Calls, N: Now>(
    tracer: &mut Tracer<C, N>,
    stock: &mut Stock,
    item: &str,
    count: u64,
) -> Result<(), ServiceError> {
    let now = stock.count(item).saturating_add(count);
    stock.set(item, now)?;
    tracer.debug("stored", &[("left", Whole(i128::from(now)))])?;
    Ok(())
}

fn take<C: Calls, N: Now>(
    tracer: &mut Tracer<C, N>,
    stock: &mut Stock,
    item: &str,
    count: u64,
) -> Result<(), ServiceError> {
    let before = stock.count(item);
    let Some(now) = before.checked_sub(count) else {
        tracer.warn("too few", &[("left", Whole(i128::from(before)))])?;
        return Err(ServiceError::TooFew);
    };
    stock.set(item, now)?;
    tracer.debug("taken", &[("left", Whole(i128::from(now)))])?;
    Ok(())
}
