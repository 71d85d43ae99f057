// The events that were accepted, all of them, and what looking back over them says of their nesting.
use reels::{Event, EventKind};
use std::alloc::Global;
use std::io;

#[derive(Drop)]
pub struct Accepted {
    events: Vec<Event>,
    // How many routines are open after each event: the begins up to it, less the ends.
    open: Vec<u32>,
}

impl Accepted {
    pub(crate) fn new(alloc: Global) -> Accepted {
        Accepted {
            events: Vec::new(alloc),
            open: Vec::new(alloc),
        }
    }

    pub(crate) fn len(&self) -> usize {
        self.events.len()
    }

    pub(crate) fn last(&self) -> Option<Event> {
        self.events.last().copied()
    }

    // Whether the last event has the kind.
    pub(crate) fn ends_in(&self, kind: EventKind) -> bool {
        self.last().is_some_and(|event| event.kind == kind)
    }

    // How many routines are open.
    pub(crate) fn depth(&self) -> u32 {
        self.open.last().copied().unwrap_or(0)
    }

    // One event more.
    pub(crate) fn push(&mut self, event: Event) -> io::Result<()> {
        let depth = self.depth();
        let open = match event.kind {
            EventKind::Begin => depth.saturating_add(1),
            EventKind::End => depth.saturating_sub(1),
            _ => depth,
        };
        self.events.push(event)?;
        self.open.push(open)?;
        Ok(())
    }

    // The latest event of the kind after which as many routines were open as now, and its place, counted from 0.
    fn latest(&self, kind: EventKind) -> Option<(usize, Event)> {
        let depth = self.depth();
        let mut found = None;
        for (at, (event, open)) in self.events.iter().zip(self.open.iter()).enumerate() {
            if event.kind == kind && *open == depth {
                found = Some((at, *event));
            }
        }
        found
    }

    // The place of the call that the last event belongs to, where that is a return.
    pub(crate) fn call(&self) -> Option<usize> {
        if !self.ends_in(EventKind::Return) {
            return None;
        }
        let (at, _) = self.latest(EventKind::Call)?;
        Some(at)
    }

    // The innermost of the open routines.
    pub(crate) fn innermost(&self) -> Option<u16> {
        if self.depth() == 0 {
            return None;
        }
        let (_, begin) = self.latest(EventKind::Begin)?;
        Some(begin.routine)
    }

    // The number of the refusal that the nesting of the accepted events gives the next one.
    pub(crate) fn refusal(&self, event: Event, limit: usize) -> Option<u16> {
        if (event.kind == EventKind::Step) != (event.routine == 0) {
            return Some(31);
        }
        let owed = match self.last() {
            Some(last) if last.kind == EventKind::Call => Some((32, EventKind::Begin, last)),
            Some(last) if last.kind == EventKind::End => Some((33, EventKind::Return, last)),
            _ => None,
        };
        if let Some((number, kind, last)) = owed {
            let is_right = event.kind == kind && event.routine == last.routine;
            return if is_right { None } else { Some(number) };
        }
        match event.kind {
            EventKind::Begin | EventKind::Return => Some(34),
            EventKind::End if self.innermost() != Some(event.routine) => Some(35),
            EventKind::Call if self.depth() as usize >= limit => Some(36),
            _ => None,
        }
    }
}
