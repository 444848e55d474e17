// The code of a group of K symbols: its shape, its limit, the filling of its banks, and the update of a symbol's packet in them.
#![tactic(auto)]

ghost use Rattle.std.specs.Prelude.{◌≡◌, ℕ, List, suc, ◌+◌, ◌-◌, ◌*◌, ◌^◌, ◌≤◌, ◌<◌, length};
ghost use Rattle.cells.specs.Cell.{cell, put};
ghost use Rattle.simplex.specs.Shape.{SymbolsInRange, banks_of, group_of, degree_of};
ghost use Rattle.simplex.specs.Limit.{TheLimit, LimitOfReads, LimitMet};
ghost use Rattle.simplex.specs.Laws.{TheFixedTable, TheCode, TheSymbols, TheBanks};
ghost use Rattle.simplex.specs.Banks.{spaced};
ghost use Rattle.simplex.specs.Filling.{packets_of, running_xor, filled, running_step, Fillable};
ghost use Rattle.simplex.specs.Symbols.{highest_of};
ghost use Rattle.simplex.specs.Updating.{symbol_updated, Updatable};

// The bounds of K. A request vector has as many counts as the largest K has symbols [shape.ranges].
pub const LEAST_SYMBOLS: usize = 2;

pub const MOST_SYMBOLS: usize = 5;

// The most pairs of a plan: the limit at the largest K [plan.pairs].
pub const MOST_PAIRS: usize = 1 << (MOST_SYMBOLS - 1);

// What K fixes: the banks of a group, and the most reads that it serves in a cycle.
#[derive(Clone, Copy, Debug, PartialEq, Eq)]
pub struct Group {
    pub banks: usize,
    pub limit: usize,
}

// The fixed table, by K from LEAST_SYMBOLS to MOST_SYMBOLS [form.groups].
const GROUPS: [Group; MOST_SYMBOLS - LEAST_SYMBOLS + 1] = [
    Group { banks: 3, limit: 2 },
    Group { banks: 7, limit: 4 },
    Group {
        banks: 15,
        limit: 8,
    },
    Group {
        banks: 31,
        limit: 16,
    },
];

// The row of K. K comes as a bare number, since a `Geometry`, which keeps it in its range, is of a layer above, and an audit has none.
pub fn group_of(k: usize) -> Group
    requires { SymbolsInRange k }
    ensures { result ≡ group_of k }
{
    GROUPS[k - LEAST_SYMBOLS]
}

// The degree of a bank [form.degree].
pub fn degree(bank: usize) -> u32
    ensures { result ≡ degree_of bank }
{
    bank.count_ones()
}

// Carries the laws of the code. It does nothing.
pub fn the_code()
    ensures table { TheFixedTable }
    ensures code { TheCode }
    ensures symbols { TheSymbols }
    ensures banks { TheBanks }
{}

// Carries the limit of the code, and that it is met at K = 2. It does nothing.
#[tactic(auto, using(crate::proofs::Limit::the_limit, crate::proofs::Limit::limit_of_reads, crate::proofs::Tight::met))]
pub fn the_limit()
    ensures limit { TheLimit }
    ensures reads { LimitOfReads }
    ensures met { LimitMet }
{}

// Where the cells of a group's banks lie in one row of a store: bank 1 at `at`, and each other bank `step` bytes after the one before it.
#[derive(Clone, Copy, Debug, PartialEq, Eq)]
pub struct Spacing {
    pub at: usize,
    pub step: usize,
}

impl Spacing {
    // Where a bank lies.
    fn place_of(self, bank: usize) -> usize
        requires { (1 ≤ bank) × (spaced self.at self.step bank < 2 ^ 64) }
        ensures { result ≡ spaced self.at self.step bank }
    {
        self.at + (bank - 1) * self.step
    }
}

// The highest symbol that a bank holds.
#[tactic(auto, using(crate::proofs::Running::highest_is))]
fn highest_of(bank: usize) -> usize
    requires { 1 ≤ bank }
    ensures { result ≡ highest_of bank }
{
    // `as`, since usize has no From<u32>.
    bank.ilog2() as usize
}

// The packet of a symbol: packets of `p` bytes stand one after the other.
fn packet_of(packets: &[u8], p: usize, symbol: usize) -> &[u8]
    requires { suc symbol * p ≤ length packets.now }
    ensures { result.now ≡ cell packets.now (symbol * p) p }
{
    &packets[symbol * p..][..p]
}

// A step of running XOR [write.steps] for a bank of several symbols, of which this is the highest, from that symbol's packet. Apart from
// `running_step`, since what is the same for all banks of a symbol is then worked out once, and the bank's place from the one before it.
fn symbol_step(
    store: &mut [u8],
    banks: Spacing,
    packet: &[u8],
    symbol: usize,
    bank: usize,
    at: usize,
)
    requires degree { 2 ≤ degree_of bank }
    requires highest { symbol ≡ highest_of bank }
    requires place { at ≡ spaced banks.at banks.step bank }
    requires room { (length packet.now ≤ banks.step) × (at + length packet.now ≤ length store.old) }
    ensures { let place = spaced banks.at banks.step in
        store.new ≡ put store.old (place bank)
        (running_xor (length packet.now) packet.now place store.old bank) }
{
    let from = banks.place_of(bank - (1 << symbol));
    cells::xor_from(store, at, from, packet);
}

// Sets one bank of several symbols, in one row of `store`, by a step of running XOR [write.steps]. `packets` are the group's, at
// least up to that of the bank's highest symbol: of one packet handed in, the promise could not say whose it is.
pub fn running_step(store: &mut [u8], banks: Spacing, packets: &[u8], p: usize, bank: usize)
    requires degree { 2 ≤ degree_of bank }
    requires packet { suc (highest_of bank) * p ≤ length packets.now }
    requires room { (p ≤ banks.step) × (spaced banks.at banks.step bank + p ≤ length store.old) }
    ensures { store.new ≡ running_step p packets.now (spaced banks.at banks.step) bank store.old }
{
    let highest = highest_of(bank);
    let at = banks.place_of(bank);
    symbol_step(
        store,
        banks,
        packet_of(packets, p, highest),
        highest,
        bank,
        at,
    );
}

// Fills the banks of which this is the highest symbol, where those of the symbols below it are filled: first the one of degree one, by a
// copy, and then each that holds other symbols too, by a step. The first lies at `first_at`; gives where the bank after the last would lie:
// places go on by adding, since with products a write of packets of one byte takes a seventh more instructions. The clause `store` speaks
// of every group that this is the packet of, and of any store that its filling began from.
fn fill_symbol(
    store: &mut [u8],
    banks: Spacing,
    first_at: usize,
    packet: &[u8],
    symbol: usize,
) -> usize
    requires symbol { symbol < MOST_SYMBOLS }
    requires place { first_at ≡ spaced banks.at banks.step (2 ^ symbol) }
    requires room { (length packet.now ≤ banks.step) × (banks.step ≤ length store.old)
        × (spaced banks.at banks.step (2 ^ suc symbol - 1) + length packet.now ≤ length store.old) }
    ensures next { result ≡ spaced banks.at banks.step (2 ^ suc symbol) }
    ensures store { (K : ℕ) (packets begun : List ℕ) → symbol < K
        → packet.now ≡ cell packets (symbol * length packet.now) (length packet.now)
        → store.old ≡ filled (length packet.now) (packets_of (length packet.now) K packets)
        (spaced banks.at banks.step) (2 ^ symbol - 1) begun
        → store.new ≡ filled (length packet.now) (packets_of (length packet.now) K packets)
        (spaced banks.at banks.step) (2 ^ suc symbol - 1) begun }
{
    let first = 1 << symbol;
    // The degree tells a copy from a step. That it does is proved, and not asked of each bank: a write of small packets would take longer.
    prove!(degree(first) == 1);
    cells::copy_into(store, first_at, packet);
    let mut at = first_at + banks.step;
    for bank in first + 1..2 * first {
        prove!(degree(bank) > 1);
        symbol_step(store, banks, packet, symbol, bank, at);
        at += banks.step;
    }
    at
}

// Fills one group's banks in one row of `store` from its `k` packets of `p` bytes: a bank of degree one by a copy of its packet, and every
// other by a step of running XOR [write.steps]. They go in the order of their numbers, since the bank that a step comes from has a lower one.
pub fn fill_group(store: &mut [u8], banks: Spacing, packets: &[u8], p: usize, k: usize)
    requires { Fillable k p banks.at banks.step packets.now store.old }
    ensures { store.new ≡ filled p (packets_of p k packets.now)
        (spaced banks.at banks.step) (banks_of k) store.old }
{
    let mut at = banks.at;
    for symbol in 0..k {
        at = fill_symbol(store, banks, at, packet_of(packets, p, symbol), symbol);
    }
}

// Updates the packet of a symbol in one group's banks in one row of `store` [update.cells]. The systematic bank is the first that holds the
// symbol, and is set last: the old packet is read there until then, and what the XOR leaves there is the new one. The loop goes upwards,
// because the compiler finds no vector form of it downwards.
pub fn update_symbol(store: &mut [u8], banks: Spacing, packet: &[u8], k: usize, symbol: usize)
    requires { Updatable k (length packet.now) symbol banks.at banks.step store.old }
    ensures { store.new ≡ symbol_updated (length packet.now) symbol packet.now
        (spaced banks.at banks.step) (banks_of k) store.old }
{
    let systematic = 1 << symbol;
    let old = banks.place_of(systematic);
    for bank in systematic + 1..=group_of(k).banks {
        // `as`, since u64 has no From<usize>.
        if bits::is_marked(bank as u64, symbol) {
            cells::xor_into(store, banks.place_of(bank), old, packet);
        }
    }
    cells::copy_into(store, old, packet)
}
