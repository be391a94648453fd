//! A service that manages a stock. It reads requests from standard input, one per line, and draws
//! its work as a tree on standard output. The tree has colours if that is a terminal.
#![tactic(auto)]

mod service;
mod stock;

use service::serve;
use std::io;
use std::io::{IsTerminal, Read};
use stock::Stock;
use tracing_tree_core::format::Wrap;
use tracing_tree_core::text::Text;
use tracing_tree_layer::{HierarchicalLayer, Layered};
use tracing_tree_tracer::{SystemClock, Tracer};

// How many columns a level is wide.
const AMOUNT: usize = 2;

fn main(rt: HostRuntime) -> anyhow::Result<()> {
    let alloc = rt.alloc();
    let mut requests = String::new(alloc);
    rt.reader().read_to_string(&mut requests)?;
    let layer = HierarchicalLayer::new(
        alloc,
        AMOUNT,
        rt.stdout().is_terminal(),
        Wrap::new(io::writer(&rt)),
    )
    .with_indent_lines(true);
    let mut tracer = Tracer::new(
        alloc,
        Layered::new(alloc, layer),
        SystemClock::start(&rt)?,
    ).with_target(Text::from_str(alloc, "stock")?);
    serve(&mut tracer, &mut Stock::new(alloc), requests.as_str())?;
    Ok(())
}
