// The shape of a memory: its ranges, its sizes, where each cell lies, and which of its rows are full.
#![tactic(auto)]

ghost use Rattle.std.specs.Prelude.{◌≡◌, length};
ghost use Rattle.layout.specs.Shape.{shape_refusal, InRange, store_size, generation_size, CellOf, offset, cell_at};
ghost use Rattle.layout.specs.Occupancy.{TheOccupancy};
ghost use Rattle.layout.specs.Laws.{TheBounds, TheLayout};

pub use occupancy::Rows;
use refusals::{Reason, Refusal, Verdict, check, is_between};
use simplex::{Group, LEAST_SYMBOLS, MOST_SYMBOLS};

mod occupancy;

// The most groups of a memory, bytes of a packet, and rows [shape.ranges].
pub const MOST_GROUPS: usize = 8;

pub const MOST_PACKET_BYTES: usize = 2048;

pub const MOST_ROWS: usize = 64;

// K symbols in a group, m groups, P bytes in a packet, G rows [shape.ranges].
#[derive(Clone, Copy, Debug, Default, PartialEq, Eq)]
pub struct Shape {
    pub k: usize,
    pub m: usize,
    pub p: usize,
    pub g: usize,
}

// The name of a packet: its row, its group and its symbol.
#[derive(Clone, Copy, Debug, PartialEq, Eq)]
pub struct PacketName {
    pub row: usize,
    pub group: usize,
    pub symbol: usize,
}

// By the three bytes of a read.
impl From<[u8; 3]> for PacketName {
    ghost use Rattle.layout.specs.Name.{name_of};

    ghost from_gives = { λ bytes name. name ≡ name_of bytes };

    fn from([row, group, symbol]: [u8; 3]) -> PacketName {
        PacketName {
            row: usize::from(row),
            group: usize::from(group),
            symbol: usize::from(symbol),
        }
    }
}

// Carries the laws of a shape, and of which rows are full. It does nothing.
pub fn the_layout()
    ensures bounds { TheBounds }
    ensures layout { TheLayout }
    ensures occupancy { TheOccupancy }
{}

// Set-up's refusal of a shape: 1 to 4 [set-up.refusals].
#[tactic(auto, unfolding(crate::specs::Shape::shape_refusal))]
pub fn judge_shape(shape: Shape) -> Verdict
    ensures { result ≡ shape_refusal shape }
{
    check(
        is_between(LEAST_SYMBOLS, MOST_SYMBOLS, shape.k),
        Reason::SymbolsOutOfRange,
        0,
    )?;
    check(
        is_between(1, MOST_GROUPS, shape.m),
        Reason::GroupsOutOfRange,
        0,
    )?;
    check(
        is_between(1, MOST_PACKET_BYTES, shape.p),
        Reason::PacketSizeOutOfRange,
        0,
    )?;
    check(is_between(1, MOST_ROWS, shape.g), Reason::RowsOutOfRange, 0)
}

// A shape in set-up's ranges. Sizes and places are computed from it.
#[derive(Clone, Copy, Debug, PartialEq, Eq)]
pub struct Geometry {
    pub shape: Shape,
    pub ghost in_range: { InRange shape },
}

// The geometry of a shape, or set-up's refusal of it: 1 to 4.
impl TryFrom<Shape> for Geometry {
    type Error = Refusal;

    ghost use Rattle.layout.specs.Judged.{Judged};

    ghost try_from_gives = { λ shape result. Judged shape (shape_refusal shape) result };

    fn try_from(shape: Shape) -> Result<Geometry, Refusal> {
        judge_shape(shape)?;
        Ok(Geometry { shape })
    }
}

impl Geometry {
    // The store's length [store.size].
    #[tactic(auto, using(simplex::proofs::Tables::banks_of_lem), unfolding(crate::specs::Shape::store_size))]
    pub fn store_size(self) -> usize
        ensures { result ≡ store_size self.shape }
    {
        let shape = self.shape;
        let Group { banks, .. } = simplex::group_of(shape.k);
        shape.m * banks * shape.g * shape.p
    }

    // The length of a generation [shape.generation].
    #[tactic(auto, unfolding(crate::specs::Shape::generation_size))]
    pub fn generation_size(self) -> usize
        ensures { result ≡ generation_size self.shape }
    {
        let shape = self.shape;
        shape.m * shape.k * shape.p
    }

    // Where a bank of a group keeps a row [store.cell].
    #[tactic(auto, using(simplex::proofs::Tables::banks_of_lem), unfolding(crate::specs::Shape::offset))]
    pub fn offset_of(self, group: usize, bank: usize, row: usize) -> usize
        requires { CellOf self.shape group bank row }
        ensures { result ≡ offset self.shape group bank row }
    {
        let shape = self.shape;
        let Group { banks, .. } = simplex::group_of(shape.k);
        ((group * banks + bank - 1) * shape.g + row) * shape.p
    }
}

// A store of a geometry's size, lent for reading.
#[derive(Clone, Copy, Debug, PartialEq, Eq)]
pub struct Store<'a> {
    pub geometry: Geometry,
    pub bytes: &'a [u8],
    pub ghost sized: { length bytes.now ≡ store_size geometry.shape },
}

impl<'a> Store<'a> {
    // What a bank of a group keeps for a row.
    #[tactic(auto, using(crate::proofs::Places::inside))]
    pub fn cell_at(self, group: usize, bank: usize, row: usize) -> &'a [u8]
        requires { CellOf self.geometry.shape group bank row }
        ensures { let shape = self.entry.geometry.shape in
            result.now ≡ cell_at shape self.entry.bytes.now group bank row }
    {
        let at = self.geometry.offset_of(group, bank, row);
        &self.bytes[at..at + self.geometry.shape.p]
    }
}
