// Network rows by the indexes of their table.
ghost use Rattle.std.specs.Prelude.{◌+◌, refl};
ghost use Rattle.rm_layer_tables.specs.Held.{is_up};
ghost use Rattle.rm_layer_tables.specs.Indexes.{network_place};
ghost use Rattle.rm_layer_tables.specs.Kept.{network_counted, row_with, kept_value};
ghost use Rattle.rm_layer_tables.specs.Shown.{column_of};
ghost use Rattle.rm_layer_tables.specs.TableLaws.{short_of};

use crate::layer_key::LayerKey;
use crate::layer_rows::LayerRows;
use crate::layer_view::LayerView;
use crate::places::{key_reached, network_index, network_place};
use crate::shown::{is_up, network_shown};
use rm_group::TableObjects;
use rm_keyed::KeyTable;
use rm_val::{Oid, Value};
use rm_walk_places::walk_place;
use std::marker::PhantomData;

/// The network rows that parts hold, by the marks at which they stand and their keys.
#[derive(Drop)]
pub struct ByNetwork<V> {
    view: PhantomData<V>,
}

impl<V: LayerView> KeyTable for ByNetwork<V> {
    type Part = V::Part;

    type Key = V::Key;

    ghost key_at = { row_with (network_place V.Key.form) (λ part. network_counted V.Key.eq (V.table_of part)) };

    ghost is_open = { is_up };

    ghost longest = { 2 + V.Key.form.count };

    ghost value_of = { kept_value (network_place V.Key.form) (λ part. network_counted V.Key.eq (V.table_of part)) (column_of V.networks V.networks.count) };

    ghost entry = { V.networks.entry };

    ghost columns = { V.networks.columns };

    fn objects() -> TableObjects {
        V::networks().objects
    }

    fn is_open(now: u32) -> bool {
        is_up(now)
    }

    fn index_above(part: &V::Part, numbers: &Oid) -> Option<Oid> {
        let rows = V::rows(part);
        rows.are_sound();
        let place = walk_place(V::Key::bounds(), numbers);
        let from = key_reached(&place.reached);
        let (mark, key) = rows.network_after(place.mark, from)?;
        key.is_named();
        Some(network_index(mark, &key))
    }

    fn value<'a>(_row: u32, part: &'a V::Part, index: &Oid, column: u32) -> Option<Value<'a>> {
        let (mark, key) = network_place::<V::Key>(index)?;
        let counted = V::rows(part).network(&key);
        network_shown::<V>(counted, mark, column)
    }

    ghost not_empty = { λ part. refl };

    ghost short = { short_of V.networks (2 + V.Key.form.count) V.networks_shown };

    ghost rising = { V.networks_shown.rising };

    ghost named = { V.networks_shown.named };

    ghost fits = { V.networks_shown.fits };
}
