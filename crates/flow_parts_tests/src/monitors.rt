// Tests of flow_monitor: what the shipped monitors say, and panels. A trace is a text of lines.

ghost use Rattle.std.specs.Prelude.{codes, if◌then◌else◌};
ghost use Rattle.flow_monitor.specs.declared.monitor.Heard.TheVariants.{Done, Stop};

use flow_base::ids::ProcId;
use flow_base::name::{Name, is_name};
use flow_monitor::{Audience, Errors, Heard, Live, Monitor, Panel, PanelFault, Until, Want, pick};
use flow_trace::line::Line;
use flow_trace::read::read_line;
use std::alloc::Global;
use std::cell::Cell;
use std::rc::Rc;
use std::test::Fail;

/// Says Done, or Stop, at each line, and notes in cells what it heard and when it was dropped.
struct Noting {
    heard: Rc<Cell<u64>>,
    drops: Rc<Cell<u64>>,
    stops: bool,
}

impl Drop for Noting {
    fn drop(self) {
        let Noting {
            heard: _,
            drops,
            stops: _,
        } = self;
        drops.set(drops.get().wrapping_add(1));
    }
}

impl Monitor for Noting {
    ghost label = { λ m. codes "noting" };

    ghost ear = { λ m before line. if m.stops then Stop else Done };

    ghost begun = { λ m limit before line. if m.stops then Stop else Done };

    fn name(&self) -> &str {
        "noting"
    }

    fn begin(&mut self, _limit: u64) {}

    fn line(&mut self, _line: &Line) -> Heard {
        self.heard.set(self.heard.get().wrapping_add(1));
        if self.stops { Heard::Stop } else { Heard::Done }
    }
}

fn want(alloc: Global, name: &[u8], limit: u64) -> Result<Want, Fail> {
    if !is_name(name) {
        return Err(Fail::from("no name"));
    }
    Ok(Want {
        name: Name::new(alloc, name)?,
        limit,
    })
}

// The number of the first line of a text, from 1, at which one of the shipped monitors says Stop, begun with a limit.
fn stops(alloc: Global, name: &[u8], limit: u64, text: &str) -> Result<Option<u32>, Fail> {
    let mut handed: Vec<Box<dyn Monitor>> = Vec::new(alloc);
    handed.push(Box::new(alloc, Live::new())?)?;
    handed.push(Box::new(alloc, Errors::new())?)?;
    handed.push(Box::new(alloc, Until::new())?)?;
    let wanted = vec![in alloc; want(alloc, name, limit)?]?;
    match Panel::attach(alloc, handed, &wanted) {
        Ok(mut panel) => Ok(first_stop(alloc, &mut panel, text)),
        Err(_) => Err(Fail::from("no panel")),
    }
}

fn first_stop<P: Audience>(alloc: Global, panel: &mut P, text: &str) -> Option<u32> {
    let mut number: u32 = 0;
    for line in text.lines() {
        number = number.wrapping_add(1);
        if is_stop(alloc, panel, line.as_bytes()) {
            return Some(number);
        }
    }
    None
}

fn is_stop<P: Audience>(alloc: Global, panel: &mut P, bytes: &[u8]) -> bool {
    match read_line(alloc, bytes) {
        Ok(line) => panel.hear(&line).is_some(),
        Err(_) => false,
    }
}

#[test]
fn until_stops_at_its_event(rt: HostRuntime) -> Result<(), Fail> {
    let alloc = rt.alloc();
    let text =
        "event 1 0 boot 0\nstart 1 main\nevent 2 1 cut 0 0\nevent 18446744073709551615 2 stop 0\n";
    assert!(rt; stops(alloc, b"until", 0, text)? == None);
    assert!(rt; stops(alloc, b"until", 1, text)? == Some(1));
    assert!(rt; stops(alloc, b"until", 2, text)? == Some(3));
    assert!(rt; stops(alloc, b"until", 3, text)? == None);
    assert!(rt; stops(alloc, b"until", 18446744073709551615, text)? == Some(4));
    Ok(())
}

#[test]
fn errors_stops_past_its_limit(rt: HostRuntime) -> Result<(), Fail> {
    let alloc = rt.alloc();
    let text =
        "event 1 0 boot 0\nthrow 1 1101\ncatch 1 1101\nthrow 1 7\nevent 2 0 kill 0\nthrow 1 1\n";
    assert!(rt; stops(alloc, b"errors", 0, text)? == Some(2));
    assert!(rt; stops(alloc, b"errors", 1, text)? == Some(4));
    // At the kill it has heard enough.
    assert!(rt; stops(alloc, b"errors", 2, text)? == None);
    assert!(rt; stops(alloc, b"errors", 18446744073709551615, text)? == None);
    Ok(())
}

// Two processes: a kill takes the actors of its own alone, and a link's event names no one process.
const LIVES: &str = "start 1 early
event 1 0 boot 1
start 1 main
start 2 leaf
done 2
fail 1 9
done 1
event 2 1 boot 2
start 1 main
start 2 leaf
event 3 2 cut 0 1
start 3 leaf
event 4 3 kill 1
start 4 leaf
event 5 4 kill 2
start 1 main
start 2 leaf
start 3 leaf
start 4 leaf
start 5 leaf
";

#[test]
fn live_counts_by_process(rt: HostRuntime) -> Result<(), Fail> {
    let alloc = rt.alloc();
    assert!(rt; stops(alloc, b"live", 0, LIVES)? == Some(1));
    assert!(rt; stops(alloc, b"live", 1, LIVES)? == Some(3));
    assert!(rt; stops(alloc, b"live", 2, LIVES)? == Some(4));
    assert!(rt; stops(alloc, b"live", 3, LIVES)? == Some(12));
    assert!(rt; stops(alloc, b"live", 4, LIVES)? == Some(14));
    assert!(rt; stops(alloc, b"live", 5, LIVES)? == Some(19));
    assert!(rt; stops(alloc, b"live", 6, LIVES)? == Some(20));
    assert!(rt; stops(alloc, b"live", 18446744073709551615, LIVES)? == None);
    Ok(())
}

#[test]
fn drops_at_done(rt: HostRuntime) -> Result<(), Fail> {
    let alloc = rt.alloc();
    let heard = Rc::new(alloc, Cell::new(0u64))?;
    let drops = Rc::new(alloc, Cell::new(0u64))?;
    let noting = Noting {
        heard: Rc::clone(&heard)?,
        drops: Rc::clone(&drops)?,
        stops: false,
    };
    let mut handed: Vec<Box<dyn Monitor>> = Vec::new(alloc);
    handed.push(Box::new(alloc, noting)?)?;
    let wanted = vec![in alloc; want(alloc, b"noting", 0)?]?;
    let Ok(mut panel) = Panel::attach(alloc, handed, &wanted) else {
        return Err(Fail::from("no panel"));
    };
    assert_eq!(rt; drops.get(), 0);
    assert!(rt; panel.hear(&Line::LostCut(1)).is_none());
    assert_eq!(rt; drops.get(), 1);
    assert!(rt; panel.hear(&Line::LostCut(2)).is_none());
    assert_eq!(rt; heard.get(), 1);
    Ok(())
}

#[test]
fn drops_at_stop(rt: HostRuntime) -> Result<(), Fail> {
    let alloc = rt.alloc();
    let heard = Rc::new(alloc, Cell::new(0u64))?;
    let drops = Rc::new(alloc, Cell::new(0u64))?;
    let noting = Noting {
        heard: Rc::clone(&heard)?,
        drops: Rc::clone(&drops)?,
        stops: true,
    };
    let mut handed: Vec<Box<dyn Monitor>> = Vec::new(alloc);
    handed.push(Box::new(alloc, Until::new())?)?;
    handed.push(Box::new(alloc, noting)?)?;
    let wanted = vec![in alloc; want(alloc, b"noting", 0)?, want(alloc, b"until", 1)?]?;
    let Ok(mut panel) = Panel::attach(alloc, handed, &wanted) else {
        return Err(Fail::from("no panel"));
    };
    // Both say Stop at this line: the first that was handed in is named, and both are gone.
    assert!(rt; panel.hear(&Line::Boot(1, 0, ProcId(0))) == Some(0));
    assert_eq!(rt; drops.get(), 1);
    assert!(rt; panel.hear(&Line::Boot(1, 0, ProcId(0))).is_none());
    assert_eq!(rt; heard.get(), 1);
    Ok(())
}

// What comes of the monitors errors, live and errors where these two names are wanted.
fn attached(alloc: Global, first: &[u8], second: &[u8]) -> Result<Result<(), PanelFault>, Fail> {
    let mut handed: Vec<Box<dyn Monitor>> = Vec::new(alloc);
    handed.push(Box::new(alloc, Errors::new())?)?;
    handed.push(Box::new(alloc, Live::new())?)?;
    handed.push(Box::new(alloc, Errors::new())?)?;
    let wanted = vec![in alloc; want(alloc, first, 0)?, want(alloc, second, 1)?]?;
    Ok(Panel::attach(alloc, handed, &wanted).map(|_| ()))
}

#[test]
fn the_first_wanted_item_that_fails(rt: HostRuntime) -> Result<(), Fail> {
    let alloc = rt.alloc();
    assert!(rt; attached(alloc, b"live", b"errors")? == Ok(()));
    assert!(rt; attached(alloc, b"live", b"live")? == Err(PanelFault::Twice(1)));
    assert!(rt; attached(alloc, b"live", b"nobody")? == Err(PanelFault::NoMonitor(1)));
    assert!(rt; attached(alloc, b"nobody", b"nobody")? == Err(PanelFault::NoMonitor(0)));
    Ok(())
}

#[test]
fn one_is_picked_by_its_name(rt: HostRuntime) -> Result<(), Fail> {
    let alloc = rt.alloc();
    let mut handed: Vec<Box<dyn Monitor>> = Vec::new(alloc);
    handed.push(Box::new(alloc, Until::new())?)?;
    handed.push(Box::new(alloc, Errors::new())?)?;
    let wanted = want(alloc, b"errors", 0)?;
    let Some(picked) = pick(handed, &wanted.name) else {
        return Err(Fail::from("none"));
    };
    assert!(rt; picked.name() == "errors");
    Ok(())
}
