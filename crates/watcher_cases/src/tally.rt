// Counts of what was compared, and a line for each answer that differs.
use refusal::Refusal;
use std::alloc::Global;
use std::fmt::Debug;
use std::{io, str};
use watching::WatchFault;

#[derive(Drop)]
pub struct Tally {
    pub rules: u64,
    // The text of the latest rule.
    text: Vec<u8>,
    pub events: u64,
    pub verdicts: u64,
    // The most routines that were open together.
    pub depth: u32,
    comparisons: u64,
    // How often each number was refused.
    refusals: [u64; 40],
    differences: String,
}

// What the refusal of a watcher shows.
pub(crate) fn shown(fault: WatchFault) -> Refusal {
    Refusal::from(fault)
}

impl Tally {
    pub(crate) fn new(alloc: Global) -> Tally {
        Tally {
            rules: 0,
            text: Vec::new(alloc),
            events: 0,
            verdicts: 0,
            depth: 0,
            comparisons: 0,
            refusals: [0; 40],
            differences: String::new(alloc),
        }
    }

    // One rule more, of the text.
    pub(crate) fn begin(&mut self, text: &[u8]) -> io::Result<()> {
        self.rules = self.rules.saturating_add(1);
        self.text.clear();
        self.text.extend_from_slice(text)?;
        Ok(())
    }

    // One refusal more of the number.
    pub(crate) fn refuse(&mut self, number: u16) {
        if let Some(count) = self.refusals.get_mut(usize::from(number)) {
            *count = count.saturating_add(1);
        }
    }

    // Compares two answers to event number `event` of the latest rule; a making is event 0.
    pub(crate) fn compare<A: PartialEq + Debug>(
        &mut self,
        event: usize,
        given: &A,
        wanted: &A,
    ) -> io::Result<()> {
        self.comparisons = self.comparisons.saturating_add(1);
        if given == wanted {
            return Ok(());
        }
        let text = str::from_utf8(self.text.as_slice()).unwrap_or("?");
        writeln!(
            self.differences,
            "event {event} of{text}: {given:?}, not {wanted:?}"
        )?;
        Ok(())
    }

    // Prints all of it.
    pub(crate) fn show(&self, rt: &impl Print, name: &str) -> io::Result<()> {
        let Tally {
            rules,
            events,
            verdicts,
            depth,
            comparisons,
            ..
        } = self;
        print!(rt;
            "{name}: {rules} rules, {events} events, {verdicts} verdicts, depth {depth}, {comparisons} comparisons; refused"
        )?;
        for (number, count) in self.refusals.iter().enumerate() {
            if *count > 0 {
                print!(rt; " {number}: {count}")?;
            }
        }
        println!(rt; "")?;
        print!(rt; "{}", self.differences.as_str())
    }
}
