//! The workers.

use crate::journal::{Done, Journal};
use crate::warehouse::{Order, Warehouse};
use std::alloc::Global;
use std::sync::{Mutex, Wait};
use std::thread;
use std::thread::Threads;
use std::time::{Clock, Duration};
use tracing_tree::format::{Id, Output, Refusal};
use tracing_tree::style::Level;
use tracing_tree_shared::StreamingLayer;

// How many workers there are.
const WORKERS: usize = 4;

// How many milliseconds a piece takes.
const PIECE_MILLIS: u64 = 1;

/// Has the workers serve all orders, and returns what came of them. A refusal is that of the first
/// worker that met one.
pub fn run_workers<W: Output + Send + Drop, R: Threads + Wait + Clock + Sync>(
    rt: &R,
    alloc: Global,
    layer: &StreamingLayer<W, ()>,
) -> Result<Done, Refusal> {
    let warehouse = Mutex::new(Warehouse::open(alloc)?);
    let mut main = journal(rt, alloc, layer, 0);
    let root = main.open("warehouse", &[], None)?;
    let each = thread::map_indices(
        rt,
        alloc,
        WORKERS,
        &|worker| serve_all(
            journal(rt, alloc, layer, (worker as u64).saturating_add(1)),
            &warehouse,
            root,
        ),
    )?;
    let mut all = Done::default();
    for done in each {
        let done = done?;
        all.shipped = all.shipped.saturating_add(done.shipped);
        all.refused = all.refused.saturating_add(done.refused);
        all.events = all.events.saturating_add(done.events);
    }
    main.close(root)?;
    Ok(all)
}

fn journal<'a, R: Wait, W: Output>(
    rt: &'a R,
    alloc: Global,
    layer: &'a StreamingLayer<W, ()>,
    worker: u64,
) -> Journal<'a, R, W> {
    Journal {
        rt,
        layer,
        alloc,
        worker,
        done: Done::default(),
    }
}

// Takes orders until the queue is empty.
fn serve_all<R: Wait + Clock, W: Output>(
    mut journal: Journal<'_, R, W>,
    warehouse: &Mutex<Warehouse>,
    root: Id,
) -> Result<Done, Refusal> {
    for _ in journal.rt.forever() {
        let next = warehouse.lock(journal.rt).next_order();
        let Some(order) = next else {
            break;
        };
        serve(&mut journal, warehouse, order, root)?;
    }
    Ok(journal.done)
}

fn serve<R: Wait + Clock, W: Output>(
    journal: &mut Journal<'_, R, W>,
    warehouse: &Mutex<Warehouse>,
    order: Order,
    root: Id,
) -> Result<(), Refusal> {
    let worker = journal.worker;
    let span = journal.open("order", &[("id", order.id), ("worker", worker)], Some(root))?;
    let left = warehouse.lock(journal.rt).take(order.pieces);
    match left {
        Some(left) => {
            let numbers = [("order", order.id), ("left", left)];
            journal.event(Level::Debug, "in stock", &numbers, span)?;
            pack(journal, order, span)?;
            journal.done.shipped = journal.done.shipped.saturating_add(1);
        }
        None => {
            let numbers = [("order", order.id), ("pieces", order.pieces)];
            journal.event(Level::Error, "not enough in stock", &numbers, span)?;
            journal.done.refused = journal.done.refused.saturating_add(1);
        }
    }
    journal.close(span)
}

// Packs each piece of an order.
fn pack<R: Wait + Clock, W: Output>(
    journal: &mut Journal<'_, R, W>,
    order: Order,
    span: Id,
) -> Result<(), Refusal> {
    let box_span = journal.open("pack", &[], Some(span))?;
    for piece in 1..=order.pieces {
        thread::sleep(journal.rt, Duration::from_millis(PIECE_MILLIS));
        let numbers = [("order", order.id), ("piece", piece)];
        journal.event(Level::Info, "packed", &numbers, box_span)?;
    }
    journal.close(box_span)
}
