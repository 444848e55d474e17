// Updates of packets: a memory with K = 3, two groups, packets of two bytes and two rows, and its whole store after each. tools/cases.py
// has the answers and the stores, by the rules.
ghost use Rattle.std.specs.Prelude.{◌≤◌};

use crate::memories::{Memory, filled};
use crate::show::{UNTOUCHED, print_answer, print_outcome, print_store, show_read};
use layout::{PacketName, Shape};
use std::io;

const SHAPE: Shape = Shape {
    k: 3,
    m: 2,
    p: 2,
    g: 2,
};

const STORE: usize = 56;

const GENERATIONS: [[u8; 12]; 2] = [
    [
        0x01, 0x02, 0x03, 0x04, 0x05, 0x06, 0x07, 0x08, 0x09, 0x0a, 0x0b, 0x0c,
    ],
    [
        0x10, 0x20, 0x30, 0x40, 0x50, 0x60, 0x70, 0x80, 0x90, 0xa0, 0xb0, 0xc0,
    ],
];

impl Memory<STORE> {
    // An update in the first `size` bytes of the store: shows the answer, the rows that are full then, as marks, and the store.
    fn show_update(
        &mut self,
        rt: &impl Print,
        size: usize,
        name: PacketName,
        packet: &[u8],
    ) -> io::Result<()>
        requires { size ≤ STORE }
    {
        // A copy of the store, since a part of a field cannot be lent.
        let Memory { state, mut store } = *self;
        print_outcome(rt, state.update(&mut store[..size], name, packet))?;
        self.store = store;
        print_store(rt, &store)
    }

    // In row 2, group 2, symbol 3, which are not there, with a packet of one byte: 5 with a broken state, 6 with a store that is a byte
    // short, 7; with row 1: 14; with group 1: 15; with symbol 1: 10, and 10 with a packet of three bytes. With row 1 empty: 15, and with
    // symbol 1: 9.
    fn show_refused_updates(mut self, rt: &impl Print) -> io::Result<()> {
        let no_row = PacketName::from([2, 2, 3]);
        let no_group = PacketName::from([1, 2, 3]);
        let no_symbol = PacketName::from([1, 1, 3]);
        let there = PacketName::from([1, 1, 1]);
        self.broken().show_update(rt, STORE - 1, no_row, &[0xff])?;
        self.show_update(rt, STORE - 1, no_row, &[0xff])?;
        self.show_update(rt, STORE, no_row, &[0xff])?;
        self.show_update(rt, STORE, no_group, &[0xff])?;
        self.show_update(rt, STORE, no_symbol, &[0xff])?;
        self.show_update(rt, STORE, there, &[0xff])?;
        self.show_update(rt, STORE, there, &[0xff, 0xff, 0xff])?;
        let released = self.state.release(1);
        print_answer(rt, released)?;
        self.state = released.state;
        self.show_update(rt, STORE, no_symbol, &[0xff])?;
        self.show_update(rt, STORE, there, &[0xff])
    }
}

// Symbol 1 of group 1 in row 1, then symbol 2 of group 0 in row 0; and a cycle that reads the first three times and symbol 0 of its group
// once. Last, symbol 0 of group 1 in row 0 of a store of other bytes, with one of bank 1 (at 28) and one of bank 3 (at 37) unlike the
// rest.
pub fn run(rt: &impl Print) -> io::Result<()> {
    println!(rt; "updates")?;
    let mut store = [0; STORE];
    let [first, second] = &GENERATIONS;
    let state = filled(&mut store, SHAPE, &[(0, first), (1, second)]);
    let mut memory = Memory { state, store };
    memory.show_refused_updates(rt)?;
    memory.show_update(rt, STORE, PacketName::from([1, 1, 1]), &[0xab, 0xcd])?;
    memory.show_update(rt, STORE, PacketName::from([0, 0, 2]), &[0x00, 0xff])?;
    show_read(
        rt,
        memory.state,
        &memory.store,
        &[1, 1, 1, 1, 1, 0, 1, 1, 1, 1, 1, 1],
        &mut [UNTOUCHED; 8],
        &mut [UNTOUCHED; 8],
    )?;
    memory.store = [0x5a; STORE];
    memory.store[28] = 0x11;
    memory.store[37] = 0x22;
    memory.show_update(rt, STORE, PacketName::from([0, 1, 0]), &[0x0f, 0xf0])
}
