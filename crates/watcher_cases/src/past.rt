// The value of each node of a rule at each accepted event, by looking back over all of them.
use crate::accepted::Accepted;
use grammar::Node;
use kinds::TruthKind;
use readings::Source;
use reels::{Event, EventKind};
use std::alloc::Global;
use std::io;
use words::Operator;

#[derive(Drop)]
pub struct Past<K> {
    pub accepted: Accepted,
    // Whether a return that is accepted hides each event.
    hidden: Vec<bool>,
    // The values of the nodes at the first event, then those at the second, and so on.
    values: Vec<K>,
    nodes: usize,
}

impl<K: TruthKind> Past<K> {
    // Nothing accepted of a rule with so many nodes.
    pub(crate) fn new(alloc: Global, nodes: usize) -> Past<K> {
        Past {
            accepted: Accepted::new(alloc),
            hidden: Vec::new(alloc),
            values: Vec::new(alloc),
            nodes,
        }
    }

    // One event more, which no refusal meets.
    pub(crate) fn accept<S: Source<Kind = K>>(
        &mut self,
        nodes: &[Node],
        event: Event,
        source: &S,
    ) -> io::Result<()> {
        self.accepted.push(event)?;
        self.hidden.push(false)?;
        self.hide();
        for (at, node) in nodes.iter().enumerate() {
            let value = self.node_value(node, at.saturating_sub(1), event, source);
            self.values.push(value)?;
        }
        Ok(())
    }

    // Hides what lies between the last event and its call, where that event is a return.
    fn hide(&mut self) {
        let Some(call) = self.accepted.call() else {
            return;
        };
        let last = self.last();
        for (at, hidden) in self.hidden.iter_mut().enumerate() {
            if call < at && at < last {
                *hidden = true;
            }
        }
    }

    // The place of the last event, counted from 0.
    fn last(&self) -> usize {
        self.accepted.len().saturating_sub(1)
    }

    // The value of a node at an event.
    fn value(&self, node: usize, event: usize) -> K {
        let at = event.saturating_mul(self.nodes).saturating_add(node);
        self.values.get(at).copied().unwrap_or(K::falsehood())
    }

    // The values of all nodes at the last event.
    pub(crate) fn latest(&self) -> &[K] {
        let at = self.last().saturating_mul(self.nodes);
        self.values.get(at..).unwrap_or(&[])
    }

    // The value of a node at the last event.
    fn now(&self, node: usize) -> K {
        self.value(node, self.last())
    }

    // The value of a node, by its word and by the values of its operands. The right or only operand is the node `right`.
    fn node_value<S: Source<Kind = K>>(
        &self,
        node: &Node,
        right: usize,
        event: Event,
        source: &S,
    ) -> K {
        let left = usize::from(node.left);
        let number = node.word.number;
        match node.word.operator {
            Operator::True => K::truth(),
            Operator::False => K::falsehood(),
            Operator::Step => truth_of(event.kind == EventKind::Step),
            Operator::Call => truth_of(event.kind == EventKind::Call),
            Operator::Begin => truth_of(event.kind == EventKind::Begin),
            Operator::End => truth_of(event.kind == EventKind::End),
            Operator::Return => truth_of(event.kind == EventKind::Return),
            Operator::Predicate => source.value(usize::from(number)).unwrap_or(K::falsehood()),
            Operator::Routine => truth_of(event.routine == number),
            Operator::Not => self.now(right).not(),
            Operator::And => self.now(left).and(self.now(right)),
            Operator::Or => self.now(left).or(self.now(right)),
            Operator::Implies => self.now(left).not().or(self.now(right)),
            Operator::Rise => self.now(right).and(self.before(right).not()),
            Operator::Fall => self.now(right).not().and(self.before(right)),
            Operator::Before => self.before(right),
            Operator::Rbefore => self.before_routine(right),
            Operator::Once => self.some(right, false),
            Operator::Ronce => self.some(right, true),
            Operator::Always => self.every(right, false),
            Operator::Ralways => self.every(right, true),
            Operator::Since => self.since(left, right, false),
            Operator::Rsince => self.since(left, right, true),
        }
    }

    // The value of a node one event ago; false at the first event.
    fn before(&self, node: usize) -> K {
        match self.last().checked_sub(1) {
            Some(event) => self.value(node, event),
            None => K::falsehood(),
        }
    }

    // The same, but at a return the value at its call.
    fn before_routine(&self, node: usize) -> K {
        match self.accepted.call() {
            Some(call) => self.value(node, call),
            None => self.before(node),
        }
    }

    // The or of a node over all events, or over those that are not hidden.
    fn some(&self, node: usize, seen: bool) -> K {
        let mut value = K::falsehood();
        for (event, hidden) in self.hidden.iter().enumerate() {
            if !(seen && *hidden) {
                value = value.or(self.value(node, event));
            }
        }
        value
    }

    // The and of a node over all events, or over those that are not hidden.
    fn every(&self, node: usize, seen: bool) -> K {
        let mut value = K::truth();
        for (event, hidden) in self.hidden.iter().enumerate() {
            if !(seen && *hidden) {
                value = value.and(self.value(node, event));
            }
        }
        value
    }

    // The or, over all events or those that are not hidden, of `right` there and `left` at each such event behind it.
    fn since(&self, left: usize, right: usize, seen: bool) -> K {
        let mut value = K::falsehood();
        let mut behind = K::truth();
        for (event, hidden) in self.hidden.iter().enumerate().rev() {
            if !(seen && *hidden) {
                value = value.or(self.value(right, event).and(behind));
                behind = behind.and(self.value(left, event));
            }
        }
        value
    }
}

// True or false of the kind.
fn truth_of<K: TruthKind>(holds: bool) -> K {
    if holds { K::truth() } else { K::falsehood() }
}
