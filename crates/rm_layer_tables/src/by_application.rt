// Application rows by the indexes of their table.
ghost use Rattle.std.specs.Prelude.{◌+◌, refl};
ghost use Rattle.rm_layer_tables.specs.Held.{is_up};
ghost use Rattle.rm_layer_tables.specs.Indexes.{application_place};
ghost use Rattle.rm_layer_tables.specs.Kept.{application_counted, row_with, kept_value};
ghost use Rattle.rm_layer_tables.specs.Shown.{column_of};
ghost use Rattle.rm_layer_tables.specs.TableLaws.{short_of};

use crate::layer_key::LayerKey;
use crate::layer_rows::LayerRows;
use crate::layer_view::LayerView;
use crate::places::{application_index, application_place, application_reached};
use crate::shown::{application_shown, is_up};
use rm_group::TableObjects;
use rm_keyed::KeyTable;
use rm_val::{Oid, Value};
use rm_walk_places::walk_place;
use std::marker::PhantomData;

/// The application rows that parts hold, by the marks at which they stand, the keys of their network rows, and the local indexes of their
/// protocols.
#[derive(Drop)]
pub struct ByApplication<V> {
    view: PhantomData<V>,
}

impl<V: LayerView> KeyTable for ByApplication<V> {
    type Part = V::Part;

    type Key = (V::Key, u32);

    ghost key_at = { row_with (application_place V.Key.form) (λ part. application_counted V.Key.eq (V.table_of part)) };

    ghost is_open = { is_up };

    ghost longest = { 3 + V.Key.form.count };

    ghost value_of = { kept_value (application_place V.Key.form) (λ part. application_counted V.Key.eq (V.table_of part)) (column_of V.applications V.application_count) };

    ghost entry = { V.applications.entry };

    ghost columns = { V.applications.columns };

    fn objects() -> TableObjects {
        V::applications().objects
    }

    fn is_open(now: u32) -> bool {
        is_up(now)
    }

    fn index_above(part: &V::Part, numbers: &Oid) -> Option<Oid> {
        let rows = V::rows(part);
        rows.are_sound();
        let place = walk_place(V::Key::bounds(), numbers);
        let from = application_reached(&place.reached);
        let (mark, (key, protocol)) = rows.application_after(place.mark, from)?;
        key.is_named();
        Some(application_index(mark, &key, protocol))
    }

    fn value<'a>(_row: u32, part: &'a V::Part, index: &Oid, column: u32) -> Option<Value<'a>> {
        let (mark, (key, protocol)) = application_place::<V::Key>(index)?;
        let counted = V::rows(part).application(&key, protocol);
        application_shown::<V>(counted, mark, column)
    }

    ghost not_empty = { λ part. refl };

    ghost short = { short_of V.applications (3 + V.Key.form.count) V.applications_shown };

    ghost rising = { V.applications_shown.rising };

    ghost named = { V.applications_shown.named };

    ghost fits = { V.applications_shown.fits };
}
