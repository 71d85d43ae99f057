// The memory of one watcher: lists just as long as its rule and its depth limit ask.
use grammar::Node;
use kinds::TruthKind;
use std::alloc::Global;
use std::io;
use watching::{Lists, OpenRoutine};
use words::Operator;

#[derive(Drop)]
pub struct Memory<K> {
    plain: Vec<K>,
    routine: Vec<K>,
    stack: Vec<K>,
    opened: Vec<OpenRoutine>,
    working: Vec<K>,
}

impl<K: TruthKind> Memory<K> {
    pub(crate) fn new(alloc: Global, nodes: &[Node], limit: usize) -> io::Result<Memory<K>> {
        let routine = nodes.iter().filter(|node| asks_routine(node)).count();
        let closed = OpenRoutine {
            routine: 0,
            call: 0,
        };
        Ok(Memory {
            plain: filled(
                alloc,
                K::falsehood(),
                nodes.iter().filter(|node| asks_plain(node)).count(),
            )?,
            routine: filled(alloc, K::falsehood(), routine)?,
            stack: filled(alloc, K::falsehood(), routine.saturating_mul(limit))?,
            opened: filled(alloc, closed, limit)?,
            working: filled(alloc, K::falsehood(), nodes.len())?,
        })
    }

    // The lists, of which the one with the number `short`, if any, is one place shorter.
    pub(crate) fn lend(&mut self, short: usize) -> Lists<'_, K> {
        Lists {
            plain: front(&mut self.plain, short == 1),
            routine: front(&mut self.routine, short == 2),
            stack: front(&mut self.stack, short == 3),
            opened: front(&mut self.opened, short == 4),
            working: front(&mut self.working, short == 5),
        }
    }

    // Whether there is a list with the number `short` and with a place to spare.
    pub(crate) fn has_place(&self, short: usize) -> bool {
        match short {
            1 => !self.plain.is_empty(),
            2 => !self.routine.is_empty(),
            3 => !self.stack.is_empty(),
            4 => !self.opened.is_empty(),
            5 => !self.working.is_empty(),
            _ => false,
        }
    }

    // The values of the nodes.
    pub(crate) fn working(&self) -> &[K] {
        self.working.as_slice()
    }

    // Writes over the list that is free between two calls.
    pub(crate) fn spoil(&mut self, value: K) {
        for place in self.working.iter_mut() {
            *place = value;
        }
    }
}

// Whether the node has a plain cell.
fn asks_plain(node: &Node) -> bool {
    matches!(
        node.word.operator,
        Operator::Before
            | Operator::Once
            | Operator::Always
            | Operator::Since
            | Operator::Rise
            | Operator::Fall
    )
}

// Whether the node has a routine cell.
fn asks_routine(node: &Node) -> bool {
    matches!(
        node.word.operator,
        Operator::Rbefore | Operator::Ronce | Operator::Ralways | Operator::Rsince
    )
}

// A list of so many equal elements.
fn filled<T: Copy>(alloc: Global, element: T, len: usize) -> io::Result<Vec<T>> {
    let mut list = Vec::new(alloc);
    for _ in 0..len {
        list.push(element)?;
    }
    Ok(list)
}

// The list, or all of it but its last place.
fn front<T>(list: &mut Vec<T>, is_short: bool) -> &mut [T] {
    let len = list.len();
    let kept = if is_short { len.saturating_sub(1) } else { len };
    &mut list.as_mut_slice()[..kept]
}
