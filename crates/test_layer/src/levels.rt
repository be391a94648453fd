//! Levels and ids as values: printed, read, in order, and as keys.

use std::collections::HashMap;
use std::test::*;
use tracing_tree::format::Id;
use tracing_tree::style::Level;

// From the least to the greatest, as `tracing` has them.
const LEVELS: [(Level, &str); 5] = [
    (Level::Error, "ERROR"),
    (Level::Warn, "WARN"),
    (Level::Info, "INFO"),
    (Level::Debug, "DEBUG"),
    (Level::Trace, "TRACE"),
];

#[test]
fn reads_the_names_that_levels_show(rt: HostRuntime) -> Result<(), Fail> {
    for (level, name) in LEVELS {
        let shown = format!(in rt.alloc(); "{level:>6}")?;
        assert_eq!(rt; shown.as_str().trim_start(), name);
        assert_eq!(rt; shown.len(), 6);
        assert_eq!(rt; name.parse::<Level>().ok(), Some(level), "{name}");
    }
    Ok(())
}

#[test]
fn reads_no_other_names(rt: HostRuntime) -> Result<(), Fail> {
    for name in ["", "info", "Warn", "WARNING", " INFO", "ERROR "] {
        let Err(error) = name.parse::<Level>() else {
            return Err(Fail::from("a level is read"));
        };
        let text = format!(in rt.alloc(); "{error}")?;
        assert_eq!(rt; text.as_str(), "expected TRACE, DEBUG, INFO, WARN or ERROR");
    }
    Ok(())
}

#[test]
fn orders_levels_as_tracing_does(rt: HostRuntime) -> Result<(), Fail> {
    assert!(rt; LEVELS.windows(2).all(|pair| pair[0].0 < pair[1].0));
    assert!(rt; Id(2) < Id(10));
    Ok(())
}

#[test]
fn keeps_values_by_id_and_level(rt: HostRuntime) -> Result<(), Fail> {
    let mut kept = HashMap::new(rt.alloc());
    kept.insert((Id(7), Level::Warn), "a")?;
    kept.insert((Id(7), Level::Info), "b")?;
    assert_eq!(rt; kept.get(&(Id(7), Level::Warn)), Some(&"a"));
    assert_eq!(rt; kept.get(&(Id(8), Level::Warn)), None);
    Ok(())
}
