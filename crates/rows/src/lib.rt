// A row of a store: its cells set from a generation, and one packet of it updated.
#![tactic(auto)]

ghost use Rattle.std.specs.Prelude.{◌≡◌, ◌*◌, ◌<◌, length};
ghost use Rattle.layout.specs.Shape.{store_size, generation_size, offset};
ghost use Rattle.layout.specs.Name.{PacketOf};
ghost use Rattle.rows.specs.Rows.{row_written, packet_updated};
ghost use Rattle.rows.specs.Laws.{TheRows};

use layout::{Geometry, PacketName, Shape};
use simplex::Spacing;

// Carries the laws of a row. It does nothing.
pub fn the_rows()
    ensures { TheRows }
{}

// Where a group's banks lie in a row.
fn spacing_of(geometry: Geometry, group: usize, row: usize) -> Spacing
    requires { (group < geometry.shape.m) × (row < geometry.shape.g) }
    ensures { result ≡ record {
      at = offset geometry.shape group 1 row;
      step = geometry.shape.g * geometry.shape.p;
    } }
{
    Spacing {
        at: geometry.offset_of(group, 1, row),
        step: geometry.shape.g * geometry.shape.p,
    }
}

// Sets the cells of all banks of all groups in a row, from a generation [write.cells]. The store comes beside its geometry, here and below,
// and not in a struct with it: what a struct with a `&mut` leaves in the store, a clause could say only as `exit`.
#[tactic(auto, using(crate::proofs::Chunks::begun))]
pub fn write_row(store: &mut [u8], geometry: Geometry, row: usize, generation: &[u8])
    requires place { row < geometry.shape.g }
    requires store_len { length store.old ≡ store_size geometry.shape }
    requires generation_len { length generation.now ≡ generation_size geometry.shape }
    ensures { store.new ≡ row_written geometry.shape row generation.now store.old }
{
    let Shape { k, p, .. } = geometry.shape;
    for (group, packets) in generation.chunks_exact(k * p).enumerate() {
        simplex::fill_group(store, spacing_of(geometry, group, row), packets, p, k);
    }
}

// Updates a packet in every bank of its group that holds it, in its row [update.cells].
pub fn update_packet(store: &mut [u8], geometry: Geometry, name: PacketName, packet: &[u8])
    requires place { PacketOf geometry.shape name }
    requires store_len { length store.old ≡ store_size geometry.shape }
    requires packet_len { length packet.now ≡ geometry.shape.p }
    ensures { store.new
        ≡ packet_updated geometry.shape name.row name.group name.symbol packet.now store.old }
{
    let banks = spacing_of(geometry, name.group, name.row);
    simplex::update_symbol(store, banks, packet, geometry.shape.k, name.symbol)
}
