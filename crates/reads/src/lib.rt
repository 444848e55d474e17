// A list of reads: judged read by read, and counted by group and symbol.
#![tactic(auto)]

ghost use Rattle.std.specs.Prelude.{◌≡◌, ◌&&◌, ◌*◌, ◌≤◌, ◌==◌, map, length};
ghost use Rattle.std.specs.List.{range_with_len};
ghost use Rattle.refusals.specs.Verdict.{first_refusal};
ghost use Rattle.layout.specs.Occupancy.{is_full};
ghost use Rattle.reads.specs.Reads.{names_of, counts_of};
ghost use Rattle.reads.specs.Refusals.{packet_refusal, read_refusal};
ghost use Rattle.reads.specs.Laws.{TheReads};
ghost use Rattle.reads.specs.Parts.{InGrid};

use layout::{Geometry, MOST_GROUPS, PacketName, Rows};
use refusals::{Reason, Verdict, check};
use simplex::MOST_SYMBOLS;

// Carries the laws of lists of reads. It does nothing.
pub fn the_reads()
    ensures { TheReads }
{}

// The refusal of a packet: 7, 14, 15, 9, with this place.
// Geometry and full rows stand apart: a `Geometry` is of a shape alone, and which rows are full is a state's.
pub fn judge_packet(geometry: Geometry, rows: Rows, name: PacketName, place: usize) -> Verdict
    ensures { result ≡ packet_refusal geometry.shape (is_full rows) place name }
{
    let shape = geometry.shape;
    check(name.row < shape.g, Reason::NoSuchRow, place)?;
    check(name.group < shape.m, Reason::NoSuchGroup, place)?;
    check(name.symbol < shape.k, Reason::NoSuchSymbol, place)?;
    check(rows.is_full(name.row), Reason::EmptyRow, place)
}

// The first refusal of a read: 7, 14, 15, 9, its place being the read's.
#[tactic(auto, using(crate::proofs::Cutting::names_many))]
pub fn judge_reads(geometry: Geometry, rows: Rows, reads: &[[u8; 3]]) -> Verdict
    ensures { let names = names_of reads.now in
        result ≡ first_refusal (read_refusal geometry.shape (is_full rows) names) (length names) }
{
    for (n, read) in reads.iter().enumerate() {
        judge_packet(geometry, rows, PacketName::from(*read), n)?;
    }
    Ok(())
}

// How often each symbol of each group is read, in whichever rows.
#[tactic(auto, using(crate::proofs::Grids::one_counted))]
pub fn count_reads(reads: &[[u8; 3]]) -> [[usize; MOST_SYMBOLS]; MOST_GROUPS]
    requires { InGrid (names_of reads.now) }
    ensures { result ≡ map (counts_of (names_of reads.now)) (range_with_len 0 MOST_GROUPS) }
{
    let mut counts = [[0; MOST_SYMBOLS]; MOST_GROUPS];
    for read in reads {
        let PacketName { group, symbol, .. } = PacketName::from(*read);
        counts[group][symbol] += 1;
    }
    counts
}

// Whether the output has p bytes for each of n reads, and the schedule two. Any n may come in, so the products may be no numbers of the
// machine.
pub fn buffers_fit(p: usize, n: usize, out: usize, schedule: usize) -> bool
    requires { 1 ≤ p }
    ensures { result ≡ ((out == n * p) && (schedule == n * 2)) }
{
    n.checked_mul(p) == Some(out) && n.checked_mul(2) == Some(schedule)
}
